// An ordinal's entry in a table that is known to be sound, so that nothing has to be checked again.
ghost use Rattle.std.specs.Prelude.{◌≡◌, List, ℕ};
ghost use Rattle.bundle.specs.declared.Bundle.{Bundle};
ghost use Rattle.tables.specs.Table.{Sound};
ghost use Rattle.entry.specs.Table.{table_of};
ghost use Rattle.entry.specs.Ordinal.{in_table};
ghost use Rattle.entry.specs.Internal.{Indexes};

use crate::index::{self, Place};
use bundle::Entry;
use refusal::Refusal;

// Goes from the nearest place of an index, head by head, to the bundle that covers the ordinal. What it answers of an unsound table
// means nothing.
#[tactic(auto, using(crate::proofs::Covers::offset_below))]
pub fn find(table: &[u8], index: &[Place], number: u32) -> Result<Entry, Refusal>
    requires { Indexes table.now index.now }
    ensures { (segments : ℕ) (bundles : List Bundle) → table_of table.now segments ≡ Sound bundles → result ≡ in_table table.now (Sound bundles) number }
{
    if number == 0 {
        return Err(Refusal::NoSuchOrdinal);
    }
    let place = index::nearest(index, number - 1);
    let mut at = place.at as usize;
    // How many ordinals before this one are still to be passed. Counted down, it can't overflow.
    let mut left = number - 1 - place.used as u32;
    loop {
        let head = bundle::head_at(table, at);
        let count = head.count;
        if count == 0 {
            return Err(Refusal::NoSuchOrdinal);
        }
        let first = at + 2;
        if left < count {
            let kind = bundle::kind_of(head.segment);
            let place = first + bundle::width(kind) * left as usize;
            return bundle::read_entry(kind, le::slice::from(table, place));
        }
        left -= count;
        at = first + bundle::size_of(head);
    }
}
