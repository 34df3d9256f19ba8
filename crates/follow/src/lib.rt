// The sites of a record in one pass: each is claimed in the marks (24, 25, 26) and written, and tells the next.
#![tactic(auto)]

mod sites;

ghost use Rattle.std.specs.Prelude.{◌≡◌, length};
ghost use Rattle.follow.specs.Internal.{passed, action_pass, SameSize};

use refusal::Refusal;
use site::Fixup;

// Goes over the sites of a record, after `done` earlier ones whose bytes are marked, and answers how many there are then.
// `stored` has the chains; `marks` and `bytes`, the segment as it is written so far, have a byte for each of its bytes.
pub fn action(
    stored: &[u8],
    a: Result<Option<Fixup>, Refusal>,
    done: u32,
    marks: &mut [u8],
    bytes: &mut [u8],
) -> Result<u32, Refusal>
    requires { SameSize stored.now marks.old bytes.old }
    ensures { passed result marks.new bytes.new ≡ action_pass stored.now a done marks.old bytes.old }
{
    match a? {
        None => Ok(done),
        Some(f) => sites::all(stored, f, done, marks, bytes),
    }
}
