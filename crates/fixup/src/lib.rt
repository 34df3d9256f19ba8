// A fixup record: its fields, and its target (22, 23). The types and their theory; `target` has the code.
#![tactic(auto)]

// The fields of a record. Of the type and the flag only the bits that count are kept.
#[derive(Clone, Copy)]
pub struct Record {
    pub kind: u8,
    pub flags: u8,
    pub site: u16,
    pub first: u16,
    pub last: u16,
}

// What a record's target words name: an offset in a segment of the module, an import, or nothing (an OS fixup).
#[derive(Clone, Copy)]
pub enum Target {
    Segment(u8, u16),
    Import,
    Os,
}
