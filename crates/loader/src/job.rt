// What a segment is prepared from.
ghost use Rattle.loader.specs.Fits.{Fits};

use header::Module;
use segment::Segment;

// A segment of an image, once all that comes before its records is passed, with the selectors and the import answers.
#[derive(Clone, Copy)]
pub struct Job<'a> {
    pub module: Module<'a>,
    pub segment: Segment,
    pub selectors: &'a [u16],
    pub answers: &'a [u32],
    ghost fits: { Fits module.image.now module.header segment answers.now },
}
