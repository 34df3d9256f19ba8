// What preparing checks before it looks at the records: the image, the segment's number, the entry table, the segment's record and
// the sizes of what is lent (1 to 14 and 21).
#![tactic(auto)]

mod found;

ghost use Rattle.std.specs.Prelude.{◌≡◌};
ghost use Rattle.prepare.specs.Prepare.{request_of};
ghost use Rattle.ready.specs.Internal.{ready_of, sized_of};

use header::{Header, Module};
use refusal::Refusal;
use segment::Segment;

// The header and the segment of a request that passed all of that.
#[derive(Clone, Copy)]
pub struct Passed {
    pub header: Header,
    pub segment: Segment,
}

// The header and the segment of a request. `output` and `marks` are the lengths of these two.
#[tactic(auto, unfolding(crate::specs::Internal::ready_of))]
pub fn check(
    image: &[u8],
    number: u32,
    selectors: &[u16],
    answers: &[u32],
    output: usize,
    marks: usize,
) -> Result<Passed, Refusal>
    ensures { result ≡ ready_of (request_of image.now number selectors.now answers.now output marks) }
{
    let header = header::read(image)?;
    let m = Module { image, header };
    let s = found::segment(&m, number)?;
    sized(m.header, s, selectors, answers, output, marks)
}

// The sizes of what is lent: 21.
#[tactic(auto, unfolding(crate::specs::Internal::sized_of, prepare::specs::Prepare::size_checks))]
fn sized(
    h: Header,
    s: Segment,
    selectors: &[u16],
    answers: &[u32],
    output: usize,
    marks: usize,
) -> Result<Passed, Refusal>
    ensures { result ≡ sized_of h s selectors.now answers.now output marks }
{
    if selectors.len() < h.segments.count as usize {
        return Err(Refusal::SelectorsShort);
    }
    if answers.len() < s.records as usize {
        return Err(Refusal::AnswersShort);
    }
    if output < s.allocation as usize {
        return Err(Refusal::OutputShort);
    }
    if marks < s.stored as usize {
        return Err(Refusal::MarksShort);
    }
    Ok(Passed {
        header: h,
        segment: s,
    })
}
