// The MZ and NE headers: where every table of a module stands, or why the image is refused (1 to 7).
#![tactic(auto)]

ghost use Rattle.std.specs.Prelude.{◌≡◌, ◌+◌, ◌*◌, ◌≤◌, ◌<◌, ◌^◌};
ghost use Rattle.checks.specs.Checks.{decide};
ghost use Rattle.header.specs.Header.{header_of, ne_checks, table_checks, tables_of, field_of, leaves, lacks};

use refusal::Refusal;

// A table of `count` elements from the place `at` on, counted from the file's start.
#[derive(Clone, Copy)]
pub struct Table {
    pub at: u32,
    pub count: u32,
}

// Where everything stands. All places count from the file's start.
#[derive(Clone, Copy)]
pub struct Header {
    pub ne: u32,
    // The bytes of a sector: 2 to the alignment shift.
    pub unit: u32,
    pub segments: Table,
    pub modules: Table,
    // Counted in bytes, as the next one.
    pub entries: Table,
    pub nonresident: Table,
    pub resident: u32,
    pub imported: u32,
    pub resources: u32,
}

// An image with its header: what all further reading starts from.
#[derive(Clone, Copy)]
pub struct Module<'a> {
    pub image: &'a [u8],
    pub header: Header,
}

// Reads and checks the headers of an image.
#[tactic(auto, unfolding(crate::specs::Header::header_of, crate::specs::Header::header_checks))]
pub fn read(image: &[u8]) -> Result<Header, Refusal>
    ensures { result ≡ header_of image.now }
{
    let len = image.len();
    if len < 64 {
        return Err(Refusal::ImageShort);
    }
    if 16777216 < len {
        return Err(Refusal::ImageLong);
    }
    if le::word(image, 0) != 0x5a4d {
        return Err(Refusal::NoMz);
    }
    let ne = le::dword(image, 0x3c);
    let at = ne as usize;
    if at < 64 || len < at + 64 {
        return Err(Refusal::NePlace);
    }
    NeHeader { image, at: ne }.read()
}

// Whether a table of `count` elements lacks the one of a number. Numbers count from 1.
#[tactic(auto, unfolding(crate::specs::Header::lacks))]
pub fn lacks(count: u32, number: u32) -> bool
    ensures { result ≡ lacks count number }
{
    number == 0 || count < number
}

// The header, where none of its sized tables leaves an image of `len` bytes.
fn inside(len: usize, h: Header) -> Result<Header, Refusal>
    ensures { result ≡ decide Err (table_checks len h) (Ok h) }
{
    if leaves(len, h.segments, 8) {
        return Err(Refusal::SegmentTable);
    }
    if leaves(len, h.modules, 2) {
        return Err(Refusal::ModuleTable);
    }
    if leaves(len, h.entries, 1) {
        return Err(Refusal::EntryTable);
    }
    if leaves(len, h.nonresident, 1) {
        return Err(Refusal::NonresidentTable);
    }
    Ok(h)
}

// Whether a table whose elements have `width` bytes leaves an image of `len` bytes. One of size 0 never does.
#[tactic(auto, unfolding(crate::specs::Header::leaves))]
fn leaves(len: usize, table: Table, width: usize) -> bool
    requires { width ≤ 8 }
    ensures { result ≡ leaves len table.at (width * table.count) }
{
    let size = width * table.count as usize;
    size != 0 && len < table.at as usize + size
}

// The NE header at a place of an image, before any check of it.
#[derive(Clone, Copy)]
struct NeHeader<'a> {
    image: &'a [u8],
    at: u32,
    ghost low: { at ≤ 16777216 },
}

impl<'a> NeHeader<'a> {
    // The refusals 5 to 7, or what it says.
    fn read(&self) -> Result<Header, Refusal>
        ensures { result ≡ decide Err (ne_checks self.now.image.now self.now.at) (Ok (tables_of self.now.image.now self.now.at)) }
    {
        if le::word(self.image, self.at as usize) != 0x454e {
            return Err(Refusal::NoNe);
        }
        let shift = self.field(0x32);
        if 15 < shift {
            return Err(Refusal::Shift);
        }
        inside(self.image.len(), self.tables(shift))
    }

    // What it says, where its shift was read before. Every place counts from the file's start.
    #[tactic(auto, unfolding(crate::specs::Header::tables_of))]
    fn tables(&self, shift: u32) -> Header
        requires small { shift ≤ 15 }
        requires read { shift ≡ field_of self.now.image.now self.now.at 0x32 }
        ensures { result ≡ tables_of self.now.image.now self.now.at }
    {
        Header {
            ne: self.at,
            unit: 1 << shift,
            segments: Table {
                at: self.place(0x22),
                count: self.field(0x1c),
            },
            modules: Table {
                at: self.place(0x28),
                count: self.field(0x1e),
            },
            entries: Table {
                at: self.place(0x04),
                count: self.field(0x06),
            },
            nonresident: Table {
                at: le::dword(self.image, self.at as usize + 0x2c),
                count: self.field(0x20),
            },
            resident: self.place(0x26),
            imported: self.place(0x2a),
            resources: self.place(0x24),
        }
    }

    // The word at an offset.
    fn field(&self, offset: u8) -> u32
        ensures is { result ≡ field_of self.now.image.now self.now.at offset }
        ensures low { result < 65536 }
    {
        le::word(self.image, self.at as usize + offset as usize) as u32
    }

    // The place that the word at an offset gives, counted from the NE header.
    fn place(&self, offset: u8) -> u32
        ensures { result ≡ self.now.at + field_of self.now.image.now self.now.at offset }
    {
        self.at + self.field(offset)
    }
}
