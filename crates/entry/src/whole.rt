// The walk of a whole table.
ghost use Rattle.std.specs.Prelude.{◌≡◌};
ghost use Rattle.entry.specs.Table.{table_of};
ghost use Rattle.entry.specs.Internal.{walk_of};

use crate::{Found, Slot, slots};
use bundle::Kind;
use refusal::Refusal;

// Walks a table to its end byte, for a module of this many segments, and finds the slot of one ordinal on the way.
#[tactic(auto, using(bundle::proofs::Went::went, crate::proofs::Walks::walk_starts, crate::proofs::Walks::walk_refused, crate::proofs::Walks::walk_ends, crate::proofs::Walks::walk_goes_on))]
pub fn walk(table: &[u8], segments: u32, number: u32) -> Result<Found, Refusal>
    ensures { result ≡ walk_of (table_of table.now segments) number }
{
    let mut at = 0;
    let mut used = 0;
    let mut slot = Slot {
        kind: Kind::Null,
        at: 0,
    };
    while let Some(b) = bundle::next(table, segments, at, used)? {
        slot = slots::choose(slot, b, number);
        at = b.end;
        used = b.used + b.count;
    }
    Ok(Found {
        ordinals: used,
        slot,
    })
}
