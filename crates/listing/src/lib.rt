// The listing of a module's ordinals, as text.
#![tactic(auto)]

mod entries;
mod lines;
mod text;

ghost use Rattle.std.specs.Prelude.{◌≡◌, length};
ghost use Rattle.le.specs.Slice.{copied};
ghost use Rattle.listing.specs.Listing.{lines_of, listing_of};

use text::Writer;

// Writes the listing of an image to the front of `out`, as much of it as fits, and answers the length of the whole. The
// rest of `out` stays as it came.
#[tactic(auto, unfolding(crate::specs::Listing::listing_of))]
pub fn write(image: &[u8], out: &mut [u8]) -> usize
    ensures bytes { out.new ≡ copied (listing_of image.now) out.old }
    ensures len { result ≡ length (listing_of image.now) }
{
    if 65536 < image.len() {
        let mut text = Writer::new(out);
        text.ascii(b"too long\n");
        return text.len;
    }
    of_any_size(image, out)
}

// The same with the lines of an image of any size.
pub fn of_any_size(image: &[u8], out: &mut [u8]) -> usize
    ensures bytes { out.new ≡ copied (lines_of image.now) out.old }
    ensures len { result ≡ length (lines_of image.now) }
{
    let mut text = Writer::new(out);
    if let Err(why) = entries::list(image, &mut text) {
        lines::numbered(&mut text, b"refused ", u32::from(why));
    }
    text.len
}
