// The entry table: what an ordinal stands for, or the refusal (12 to 15).
//
// One walk, bundle by bundle, checks the table for all who read it. Whoever knows that it is sound goes from head to head instead.
#![tactic(auto)]

mod heads;
mod index;
mod slots;
mod whole;

ghost use Rattle.std.specs.Prelude.{◌≡◌};
ghost use Rattle.entry.specs.Ordinal.{table_bytes, ordinal_of, ordinal_in};

use bundle::{Entry, Kind};
use header::Module;
pub use heads::find;
pub use index::{Place, START, fill};
use refusal::Refusal;
pub use whole::walk;

// Where an ordinal's entry stands, counted from the table's start; of the kind `Null` where it has none.
#[derive(Clone, Copy)]
pub struct Slot {
    pub kind: Kind,
    pub at: usize,
}

// What a walk of the whole table finds: how many ordinals it has, and the slot of the one asked for.
#[derive(Clone, Copy)]
pub struct Found {
    pub ordinals: u32,
    pub slot: Slot,
}

// What an ordinal stands for.
#[tactic(auto, unfolding(crate::specs::Ordinal::ordinal_of))]
pub fn by_ordinal(image: &[u8], number: u32) -> Result<Entry, Refusal>
    ensures { result ≡ ordinal_of image.now number }
{
    let header = header::read(image)?;
    let m = Module { image, header };
    in_table(&m, number)
}

// The same once the header is known: refusals 12 to 15.
#[tactic(auto, unfolding(crate::specs::Ordinal::ordinal_in))]
pub fn in_table(m: &Module, number: u32) -> Result<Entry, Refusal>
    ensures { result ≡ ordinal_in m.now.image.now m.now.header number }
{
    let bytes = table(m);
    let slot = walk(bytes, m.header.segments.count, number)?.slot;
    bundle::read_entry(slot.kind, le::slice::from(bytes, slot.at))
}

// The bytes of the entry table.
pub fn table<'a>(m: &Module<'a>) -> &'a [u8]
    ensures { result.now ≡ table_bytes m.now.image.now m.now.header }
{
    let rest = le::slice::from(m.image, m.header.entries.at as usize);
    le::slice::first(rest, m.header.entries.count as usize)
}
