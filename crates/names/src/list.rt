// One list of names: its walk, and the search on the way.
ghost use Rattle.std.specs.Prelude.{◌≡◌, ◌+◌, ◌≤◌, ◌<◌, ◌^◌, IfOk};
ghost use Rattle.names.specs.Names.{list_from};
ghost use Rattle.names.specs.Internal.{walk_of};

use crate::wanted::Wanted;
use crate::{Name, Progress};
use refusal::Refusal;

// Where a list starts, the place past which nothing of it may lie, and why it is refused where something does.
#[derive(Clone, Copy)]
pub struct Extent {
    pub at: usize,
    pub limit: usize,
    pub why: Refusal,
}

// Walks a list to its end byte, and finds what is asked for on the way, unless it was found before.
#[tactic(auto, using(crate::proofs::Walk::steps))]
pub fn walk<W: Wanted>(
    image: &[u8],
    e: Extent,
    before: Progress,
    wanted: &W,
) -> Result<Progress, Refusal>
    requires limit { e.limit < 2 ^ 63 }
    requires used { before.used < 2 ^ 63 }
    ensures is { result ≡ walk_of (list_from image.now e.limit e.why e.at before.used) before (W.takes wanted.now) }
    ensures few { IfOk result (λ p. p.used ≤ before.used + e.limit) }
{
    let limit = e.limit;
    let why = e.why;
    let first = before.used + 1;
    let mut at = e.at;
    let mut used = before.used;
    let mut found = before.found;
    loop {
        if limit <= at {
            return Err(why);
        }
        let len = le::byte(image, at);
        if len == 0 {
            return Ok(Progress { used, found });
        }
        let text = at + 1;
        let word = text + len as usize;
        let end = word + 2;
        if limit < end {
            return Err(why);
        }
        let n = Name {
            number: used + 1,
            at: text,
            len,
            ordinal: le::word(image, word),
        };
        if found.is_none() && wanted.takes(first, n) {
            found = Some(n);
        }
        at = end;
        used += 1;
    }
}
