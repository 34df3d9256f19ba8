// The fields of a fixup record, read from its bytes.
ghost use Rattle.std.specs.Prelude.{◌≡◌};
ghost use Rattle.fixup.specs.Record.{record_at};

use fixup::Record;

// The fields of the record that starts at the first byte.
#[tactic(auto, unfolding(fixup::specs::Record::record_at))]
pub fn fields(bytes: &[u8]) -> Record
    ensures { result ≡ record_at bytes.now 0 }
{
    Record {
        kind: le::byte(bytes, 0) % 16,
        flags: le::byte(bytes, 1) % 8,
        site: le::word(bytes, 2),
        first: le::word(bytes, 4),
        last: le::word(bytes, 6),
    }
}

// The record of an index, counted from 0 at the start of `part`: the image from the record list's place on.
pub fn record(part: &[u8], index: u16) -> Record
    ensures { result ≡ record_at part.now index }
{
    let at = 8 * index as usize;
    let end = at + 8;
    // A part of 8 bytes, so that no read of a field has to test the length.
    if end <= part.len() {
        return fields(&part[at..end]);
    }
    fields(le::slice::from(part, at))
}
