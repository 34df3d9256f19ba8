// Preparing a segment, and document 01's step, on buffers that are lent.
#![tactic(auto)]

mod apply;
mod fill;
mod job;
mod records;

ghost use Rattle.std.specs.Prelude.{◌≡◌, length};
ghost use Rattle.prepare.specs.Prepare.{request_of};
ghost use Rattle.prepare.specs.Promise.{Promise};
ghost use Rattle.prepare.specs.Step.{step_of, one_of};

use header::Module;
use job::Job;
use prepare::Rejection;

// Prepares the segment of a number: its bytes in the output, and the marks of the bytes that lie in a span.
pub fn prepare(
    image: &[u8],
    number: u32,
    selectors: &[u16],
    answers: &[u32],
    output: &mut [u8],
    marks: &mut [u8],
) -> Result<u32, Rejection>
    ensures { Promise (request_of image.now number selectors.now answers.now (length output.old) (length marks.old)) result output.old output.new marks.old marks.new }
{
    le::slice::clear(marks);
    match ready::check(image, number, selectors, answers, output.len(), marks.len()) {
        Err(why) => Err(Rejection::from(why)),
        Ok(passed) => {
            let job = Job {
                module: Module {
                    image,
                    header: passed.header,
                },
                segment: passed.segment,
                selectors,
                answers,
            };
            apply::segment(&job, output, marks)
        }
    }
}

// Document 01's step of one record, given by its 8 bytes with its own import answer. The image is read for its target alone; where that
// doesn't resolve the buffer stays as it came.
#[tactic(auto, unfolding(prepare::specs::Step::step_of))]
pub fn step(image: &[u8], fixup: &[u8; 8], answer: u32, selectors: &[u16], buffer: &mut [u8])
    ensures { buffer.new ≡ step_of image.now selectors.now (one_of fixup.now answer) buffer.old }
{
    if let Ok(header) = header::read(image) {
        let m = Module { image, header };
        let action = target::alone(&m, selectors, answer, target::fields(fixup));
        step::carry_out(action, buffer);
    }
}
