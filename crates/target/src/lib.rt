// What a fixup record asks for, once the selectors and its import answer are known: its type (22), then its target (23).
#![tactic(auto)]

mod address;
mod named;
mod read;

ghost use Rattle.std.specs.Prelude.{◌≡◌};
ghost use Rattle.entry.specs.Ordinal.{table_bytes, ordinal_in};
ghost use Rattle.entry.specs.Internal.{Indexes};
ghost use Rattle.target.specs.Internal.{Checked, Finds};
ghost use Rattle.fixup.specs.Record.{typed_of};
ghost use Rattle.fixup.specs.Action.{action_of};

use bundle::Entry;
use entry::Place;
use fixup::Record;
use header::Module;
pub use read::{fields, record};
use refusal::Refusal;
use site::{Fixup, Kind};

// What a record asks for, where the entry table is known to be sound and there is an index of it.
pub fn action(
    m: &Module,
    index: &[Place],
    selectors: &[u16],
    answer: u32,
    r: Record,
) -> Result<Option<Fixup>, Refusal>
    requires checked { Checked m.now.image.now m.now.header }
    requires indexed { Indexes (table_bytes m.now.image.now m.now.header) index.now }
    ensures { result ≡ action_of m.now.image.now m.now.header selectors.now answer r }
{
    let find = |number: u32| -> Result<Entry, Refusal>
        requires checked { Checked m.now.image.now m.now.header }
        requires index { Indexes (table_bytes m.now.image.now m.now.header) index.now }
        ensures { result ≡ ordinal_in m.entry.now.image.now m.entry.now.header number }
    { indexed(m, index, number) };
    asked(m, selectors, answer, r, find)
}

// What an ordinal stands for, by an index of an entry table that is known to be sound.
fn indexed(m: &Module, index: &[Place], number: u32) -> Result<Entry, Refusal>
    requires checked { Checked m.now.image.now m.now.header }
    requires index { Indexes (table_bytes m.now.image.now m.now.header) index.now }
    ensures { result ≡ ordinal_in m.now.image.now m.now.header number }
{
    entry::find(entry::table(m), index, number)
}

// What a record asks for, where nothing is known of the entry table: it is checked first if an ordinal is looked for.
pub fn alone(
    m: &Module,
    selectors: &[u16],
    answer: u32,
    r: Record,
) -> Result<Option<Fixup>, Refusal>
    ensures { result ≡ action_of m.now.image.now m.now.header selectors.now answer r }
{
    let find = |number: u32| -> Result<Entry, Refusal>
        ensures { result ≡ ordinal_in m.entry.now.image.now m.entry.now.header number }
    { entry::in_table(m, number) };
    asked(m, selectors, answer, r, find)
}

// What a record asks for. `find` says what an ordinal stands for.
#[tactic(auto, using(crate::proofs::Entries::target_counted), unfolding(fixup::specs::Action::action_of))]
fn asked<F: FnOnce(u32) -> Result<Entry, Refusal>>(
    m: &Module,
    selectors: &[u16],
    answer: u32,
    r: Record,
    find: F,
) -> Result<Option<Fixup>, Refusal>
    requires { Finds (F.pre find) (F.post find) m.now.image.now m.now.header r.last }
    ensures { result ≡ action_of m.now.image.now m.now.header selectors.now answer r }
{
    let kind = typed(r.kind).ok_or(Refusal::FixupType)?;
    let target = named::target(m, r, find)?;
    address::to_target(selectors, answer, r, kind, target)
}

// What a record's type stands for.
#[tactic(auto, unfolding(fixup::specs::Record::typed_of))]
fn typed(kind: u8) -> Option<Kind>
    ensures { result ≡ typed_of kind }
{
    match kind {
        0 => Some(Kind::LowByte),
        2 => Some(Kind::Selector),
        3 => Some(Kind::Far),
        5 => Some(Kind::Offset),
        _ => None,
    }
}
