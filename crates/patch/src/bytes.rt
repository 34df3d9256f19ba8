// What a fixup writes, by its parts.
ghost use Rattle.std.specs.Prelude.{◌≡◌, ◌+◌, ◌≤◌, length};
ghost use Rattle.std.proofs.lemmas.List.Edits.{sets};
ghost use Rattle.le.specs.Number.{bytes_of};
ghost use Rattle.site.specs.Site.{low_byte_of, offset_of};

use site::Fixup;

// The low byte of the target, added to the byte that is there if the fixup is additive.
pub fn low_byte(f: Fixup, byte: u8) -> u8
    ensures { result ≡ low_byte_of f byte }
{
    let low = (f.offset % 256) as u8;
    if f.additive {
        byte.wrapping_add(low)
    } else {
        low
    }
}

// The target's offset, added to the word that is there if the fixup is additive. A carry is dropped.
pub fn offset(f: Fixup, word: u16) -> u16
    ensures { result ≡ offset_of f word }
{
    if f.additive {
        word.wrapping_add(f.offset)
    } else {
        f.offset
    }
}

// Writes a word at the place `at`.
pub fn word(buffer: &mut [u8], at: usize, w: u16)
    requires { at + 2 ≤ length buffer.old }
    ensures { buffer.new ≡ sets buffer.old at (bytes_of 2 w) }
{
    let [low, high] = w.to_le_bytes();
    buffer[at] = low;
    buffer[at + 1] = high;
}
