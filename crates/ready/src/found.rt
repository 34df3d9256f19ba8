// The segment that is asked for, in a module whose header is sound.
ghost use Rattle.std.specs.Prelude.{◌≡◌};
ghost use Rattle.ready.specs.Internal.{found_of};

use header::Module;
use refusal::Refusal;
use segment::Segment;

// The segment of a number: 8, the whole entry table's 12 to 14, then 10, 11 and 9.
#[tactic(auto, using(header::proofs::Numbered::has), unfolding(crate::specs::Internal::found_of))]
pub fn segment(m: &Module, number: u32) -> Result<Segment, Refusal>
    ensures { result ≡ found_of m.now.image.now m.now.header number }
{
    if header::lacks(m.header.segments.count, number) {
        return Err(Refusal::NoSuchNumber);
    }
    entry::walk(entry::table(m), m.header.segments.count, 0)?;
    segment::record(m, number - 1)
}
