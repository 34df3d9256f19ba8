// An ordinal's slot in the bundle that covers it.
ghost use Rattle.std.specs.Prelude.{◌≡◌, cond, ◌^◌, ◌<◌};
ghost use Rattle.entry.specs.Table.{covers, slot_of};

use crate::Slot;
use bundle::Bundle;

// Whether a bundle covers an ordinal.
fn covers(b: Bundle, number: u32) -> bool
    ensures { result ≡ covers b number }
{
    b.used < number && number as usize <= b.used as usize + b.count as usize
}

// The ordinal's slot in a bundle that covers it, or else the slot `other`.
pub fn choose(other: Slot, b: Bundle, number: u32) -> Slot
    requires { b.at < 2 ^ 63 }
    ensures { result ≡ cond (covers b number) (slot_of b number) other }
{
    if covers(b, number) {
        let index = (number - 1 - b.used) as usize;
        return Slot {
            kind: b.kind,
            at: b.at + bundle::width(b.kind) * index,
        };
    }
    other
}
