// The walk of a whole table.
ghost use Rattle.std.specs.Prelude.{◌≡◌, ◌≤◌, ◌<◌, ◌^◌};
ghost use Rattle.std.specs.Option.{option_or};
ghost use Rattle.resources.specs.Resource.{blocks_from};
ghost use Rattle.resources.specs.Internal.{first_in, walk_of};

use crate::Resource;
use crate::block::{Block, Resources};
use crate::wanted::Wanted;
use refusal::Refusal;

// Walks the blocks from a place on to the type 0 that ends them, and finds what is asked for on the way.
#[tactic(auto, using(crate::proofs::Walk::steps))]
pub fn walk<W: Wanted>(
    image: &[u8],
    shift: u16,
    start: usize,
    wanted: &W,
) -> Result<Option<Resource>, Refusal>
    requires shift { shift ≤ 15 }
    requires start { start < 2 ^ 63 }
    ensures { result ≡ walk_of (blocks_from image.now shift start) (W.takes wanted.now) }
{
    let len = image.len();
    let mut at = start;
    let mut used = 0;
    let mut found = None;
    loop {
        if len < at + 2 {
            return Err(Refusal::ResourceTable);
        }
        let kind = le::word(image, at);
        if kind == 0 {
            return Ok(found);
        }
        let count = le::word(image, at + 2) as usize;
        let first = at + 8;
        let end = first + 12 * count;
        if len < end {
            return Err(Refusal::ResourceTable);
        }
        let block = Block {
            kind,
            shift,
            used,
            at: first,
            count,
        };
        found = found_or(found, wanted, &Resources { image, block });
        at = end;
        used += count;
    }
}

// What was found before, or else the first resource of a block that is asked for.
fn found_or<W: Wanted>(found: Option<Resource>, wanted: &W, rs: &Resources) -> Option<Resource>
    ensures { result ≡ option_or found (first_in (W.takes wanted.now) rs.now.image.now rs.now.block) }
{
    match found {
        Some(r) => Some(r),
        None => wanted.first(rs),
    }
}
