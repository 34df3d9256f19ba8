// Why a request is refused, and the number that document 01 gives for it.
#![tactic(auto)]

ghost use Rattle.std.specs.Prelude.{◌≡◌};
ghost use Rattle.refusal.specs.Number.{number_of};

// One case for each thing that can be wrong, in the order of the numbers. Cases that share a number are kept apart.
#[derive(Clone, Copy, Debug, PartialEq, Eq)]
pub enum Refusal {
    ImageShort,
    ImageLong,
    NoMz,
    NePlace,
    NoNe,
    Shift,
    SegmentTable,
    ModuleTable,
    EntryTable,
    NonresidentTable,
    NoSuchNumber,
    SegmentOutside,
    Iterated,
    AllocationShort,
    EntryTableEnds,
    EntryUnsound,
    OrdinalsOver,
    NoSuchOrdinal,
    ResidentNames,
    NonresidentNames,
    ImportedString,
    NoSuchName,
    ResourceTable,
    ResourceShift,
    NoSuchResource,
    ResourceOutside,
    SelectorsShort,
    AnswersShort,
    OutputShort,
    MarksShort,
    FixupType,
    TargetSegment,
    TargetModule,
    TargetOrdinal,
    TargetString,
    SpanOutside,
    SpanTaken,
    SitesOver,
}

impl From<Refusal> for u32 {
    ghost from_gives = { λ why n. n ≡ number_of why };

    // The number of a refusal.
    fn from(why: Refusal) -> u32 {
        match why {
            Refusal::ImageShort => 1,
            Refusal::ImageLong => 2,
            Refusal::NoMz => 3,
            Refusal::NePlace => 4,
            Refusal::NoNe => 5,
            Refusal::Shift => 6,
            Refusal::SegmentTable => 7,
            Refusal::ModuleTable => 7,
            Refusal::EntryTable => 7,
            Refusal::NonresidentTable => 7,
            Refusal::NoSuchNumber => 8,
            Refusal::SegmentOutside => 9,
            Refusal::Iterated => 10,
            Refusal::AllocationShort => 11,
            Refusal::EntryTableEnds => 12,
            Refusal::EntryUnsound => 13,
            Refusal::OrdinalsOver => 14,
            Refusal::NoSuchOrdinal => 15,
            Refusal::ResidentNames => 16,
            Refusal::NonresidentNames => 16,
            Refusal::ImportedString => 16,
            Refusal::NoSuchName => 17,
            Refusal::ResourceTable => 18,
            Refusal::ResourceShift => 18,
            Refusal::NoSuchResource => 19,
            Refusal::ResourceOutside => 20,
            Refusal::SelectorsShort => 21,
            Refusal::AnswersShort => 21,
            Refusal::OutputShort => 21,
            Refusal::MarksShort => 21,
            Refusal::FixupType => 22,
            Refusal::TargetSegment => 23,
            Refusal::TargetModule => 23,
            Refusal::TargetOrdinal => 23,
            Refusal::TargetString => 23,
            Refusal::SpanOutside => 24,
            Refusal::SpanTaken => 25,
            Refusal::SitesOver => 26,
        }
    }
}
