// The lines of an image.
ghost use Rattle.std.specs.Prelude.{◌≡◌, true, ◌≤◌, ◌+◌, ◌*◌, length, OnOk, OnErr, IfErr};
ghost use Rattle.bundle.specs.Bundle.{width_of};
ghost use Rattle.entry.specs.Table.{table_of, is_sound};
ghost use Rattle.listing.specs.Internal.{Writes, bundle_lines, table_lines};
ghost use Rattle.listing.specs.Listing.{lines_of, refused_of};

use crate::lines;
use crate::text::Writer;
use bundle::Bundle;
use header::Module;
use refusal::Refusal;

// The count, the lines and the last line of an image whose header and entry table are sound, or why they are not.
#[tactic(auto, unfolding(crate::specs::Listing::lines_of, crate::specs::Listing::entries_of))]
pub fn list(image: &[u8], text: &mut Writer<'_>) -> Result<(), Refusal>
    ensures ok { OnOk result (Writes text.old (lines_of image.now) text.new) }
    ensures same { OnErr result (text.new ≡ text.old) }
    ensures err { IfErr result (λ why. lines_of image.now ≡ refused_of why) }
{
    let header = header::read(image)?;
    let segments = header.segments.count;
    let table = entry::table(&Module { image, header });
    let found = entry::walk(table, segments, 0)?;
    lines::numbered(text, b"ordinals ", found.ordinals);
    bundles(table, segments, text);
    text.ascii(b"end\n");
    Ok(())
}

// The lines of all bundles of a sound table. No step over one is refused.
#[tactic(auto, unfolding(crate::specs::Internal::bundles_lines))]
fn bundles(table: &[u8], segments: u32, text: &mut Writer<'_>)
    requires { is_sound (table_of table.now segments) ≡ true }
    ensures { Writes text.old (table_lines table.now (table_of table.now segments)) text.new }
{
    let mut at = 0;
    let mut used = 0;
    while let Some(b) = bundle::next(table, segments, at, used).unwrap_or(None) {
        bundle(table, b, text);
        at = b.end;
        used = b.used + b.count;
    }
}

// The lines of one bundle.
fn bundle(table: &[u8], b: Bundle, text: &mut Writer<'_>)
    requires few { b.used + b.count ≤ 65535 }
    requires inside { b.at + width_of b.kind * b.count ≤ length table.now }
    ensures { Writes text.old (bundle_lines table.now b) text.new }
{
    for index in 0..b.count {
        let place = b.at + bundle::width(b.kind) * index as usize;
        let answer = bundle::read_entry(b.kind, le::slice::from(table, place));
        lines::ordinal(text, b.used + 1 + index, answer);
    }
}
