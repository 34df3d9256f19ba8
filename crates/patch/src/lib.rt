// A fixup at one of its sites: how wide its span is there, and the bytes that it writes.
#![tactic(auto)]

mod bytes;

ghost use Rattle.std.specs.Prelude.{◌≡◌, ◌+◌, ◌≤◌, length};
ghost use Rattle.std.proofs.lemmas.List.Edits.{sets};
ghost use Rattle.site.specs.Site.{width_of, written_over};

use site::{Fixup, Kind};

// The bytes of a fixup's span.
pub fn width(kind: Kind, additive: bool) -> u8
    ensures is { result ≡ width_of kind additive }
    ensures small { result ≤ 4 }
{
    match kind {
        Kind::Far => 4,
        Kind::Selector | Kind::Offset => 2,
        Kind::LowByte => if additive { 1 } else { 2 },
    }
}

// Writes a fixup at the place `at` of a buffer, where this byte and this word stand in the segment.
pub fn put(f: Fixup, byte: u8, word: u16, buffer: &mut [u8], at: usize)
    requires { at + width_of f.kind f.additive ≤ length buffer.old }
    ensures { buffer.new ≡ sets buffer.old at (written_over f.kind f byte word) }
{
    match f.kind {
        Kind::LowByte => buffer[at] = bytes::low_byte(f, byte),
        Kind::Selector => bytes::word(buffer, at, f.selector),
        Kind::Far => {
            bytes::word(buffer, at, bytes::offset(f, word));
            bytes::word(buffer, at + 2, f.selector);
        }
        Kind::Offset => bytes::word(buffer, at, bytes::offset(f, word)),
    }
}
