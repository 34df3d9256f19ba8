// The C interface: each function asks the library and hands its answer over as numbers (`include/ne.h`).
#![tactic(auto)]

mod results;

ghost use Rattle.std.specs.Prelude.{◌≡◌, length};
ghost use Rattle.le.specs.Slice.{copied};
ghost use Rattle.header.specs.Header.{header_of};
ghost use Rattle.header.specs.Values as header;
ghost use Rattle.segment.specs.Segment.{segment_of};
ghost use Rattle.segment.specs.Values as segment;
ghost use Rattle.entry.specs.Ordinal.{ordinal_of};
ghost use Rattle.bundle.specs.Values as entry;
ghost use Rattle.names.specs.Names.{name_by_number, name_by_bytes};
ghost use Rattle.names.specs.Values as names;
ghost use Rattle.imports.specs.Module.{module_of};
ghost use Rattle.imports.specs.Values as imported;
ghost use Rattle.resources.specs.Resource.{resource_by_number, resource_by_words};
ghost use Rattle.resources.specs.Values as resources;
ghost use Rattle.prepare.specs.Prepare.{request_of};
ghost use Rattle.prepare.specs.Step.{step_of, one_of};
ghost use Rattle.listing.specs.Listing.{lines_of};
ghost use Rattle.ne.specs.Fields.{header_fields, segment_fields, ordinal_fields, name_fields, module_fields, resource_fields, Prepares};

#[repr(C)]
#[derive(Default, Drop)]
pub struct NeHeader {
    pub refusal: u32,
    pub header_at: u32,
    pub unit: u32,
    pub segments_at: u32,
    pub segments: u32,
    pub modules_at: u32,
    pub modules: u32,
    pub entries_at: u32,
    pub entries_len: u32,
    pub nonresident_at: u32,
    pub nonresident_len: u32,
    pub resident_at: u32,
    pub imported_at: u32,
    pub resources_at: u32,
}

#[repr(C)]
#[derive(Default, Drop)]
pub struct NeSegment {
    pub refusal: u32,
    pub start: u32,
    pub stored: u32,
    pub flags: u32,
    pub allocation: u32,
    pub records: u32,
}

#[repr(C)]
#[derive(Default, Drop)]
pub struct NeOrdinal {
    pub refusal: u32,
    pub segment: u32,
    pub offset: u32,
    pub flag: u32,
}

#[repr(C)]
#[derive(Default, Drop)]
pub struct NeName {
    pub refusal: u32,
    pub number: u32,
    pub text_at: u32,
    pub text_len: u32,
    pub ordinal: u32,
}

#[repr(C)]
#[derive(Default, Drop)]
pub struct NeModule {
    pub refusal: u32,
    pub text_at: u32,
    pub text_len: u32,
}

#[repr(C)]
#[derive(Default, Drop)]
pub struct NeResource {
    pub refusal: u32,
    // `type` in the C header.
    pub kind: u32,
    pub id: u32,
    pub flags: u32,
    pub data_at: u32,
    pub data_len: u32,
}

#[repr(C)]
#[derive(Drop)]
pub struct NePrepare {
    pub refusal: u32,
    pub record: u32,
    pub sites: u32,
}

#[unsafe(no_mangle)]
pub extern "C" fn ne_header(image: &[u8]) -> NeHeader
    ensures { header_fields result ≡ header.values_of (header_of image.now) }
{
    results::header(header::read(image))
}

#[unsafe(no_mangle)]
pub extern "C" fn ne_segment(image: &[u8], number: u32) -> NeSegment
    ensures { segment_fields result ≡ segment.values_of (segment_of image.now number) }
{
    match segment::by_number(image, number) {
        Err(why) => NeSegment {
            refusal: u32::from(why),
            ..NeSegment::default()
        },
        Ok(s) => NeSegment {
            refusal: 0,
            start: s.start as u32,
            stored: s.stored,
            flags: s.flags as u32,
            allocation: s.allocation,
            records: s.records as u32,
        },
    }
}

#[unsafe(no_mangle)]
pub extern "C" fn ne_ordinal(image: &[u8], number: u32) -> NeOrdinal
    ensures { ordinal_fields result ≡ entry.values_of (ordinal_of image.now number) }
{
    match entry::by_ordinal(image, number) {
        Err(why) => NeOrdinal {
            refusal: u32::from(why),
            ..NeOrdinal::default()
        },
        Ok(e) => NeOrdinal {
            refusal: 0,
            segment: e.segment as u32,
            offset: e.offset as u32,
            flag: e.flag as u32,
        },
    }
}

#[unsafe(no_mangle)]
pub extern "C" fn ne_name_by_number(image: &[u8], number: u32) -> NeName
    ensures { name_fields result ≡ names.values_of (name_by_number image.now number) }
{
    results::name(names::by_number(image, number))
}

#[unsafe(no_mangle)]
pub extern "C" fn ne_name_by_bytes(image: &[u8], name: &[u8]) -> NeName
    ensures { name_fields result ≡ names.values_of (name_by_bytes image.now name.now) }
{
    results::name(names::by_bytes(image, name))
}

#[unsafe(no_mangle)]
pub extern "C" fn ne_module(image: &[u8], number: u32) -> NeModule
    ensures { module_fields result ≡ imported.values_of (module_of image.now number) }
{
    match imports::by_number(image, number) {
        Err(why) => NeModule {
            refusal: u32::from(why),
            ..NeModule::default()
        },
        Ok(text) => NeModule {
            refusal: 0,
            text_at: text.at as u32,
            text_len: text.len as u32,
        },
    }
}

#[unsafe(no_mangle)]
pub extern "C" fn ne_resource_by_number(image: &[u8], number: u32) -> NeResource
    ensures { resource_fields result ≡ resources.values_of (resource_by_number image.now number) }
{
    results::resource(resources::by_number(image, number))
}

#[unsafe(no_mangle)]
pub extern "C" fn ne_resource_by_words(image: &[u8], kind: u32, id: u32) -> NeResource
    ensures { resource_fields result ≡ resources.values_of (resource_by_words image.now kind id) }
{
    results::resource(resources::by_words(image, kind, id))
}

#[unsafe(no_mangle)]
pub extern "C" fn ne_prepare(
    image: &[u8],
    number: u32,
    selectors: &[u16],
    answers: &[u32],
    output: &mut [u8],
    marks: &mut [u8],
) -> NePrepare
    ensures { Prepares (request_of image.now number selectors.now answers.now (length output.old) (length marks.old)) result output.old output.new marks.old marks.new }
{
    results::prepared(loader::prepare(image, number, selectors, answers, output, marks))
}

#[unsafe(no_mangle)]
pub extern "C" fn ne_step(
    image: &[u8],
    fixup: &[u8; 8],
    answer: u32,
    selectors: &[u16],
    buffer: &mut [u8],
)
    ensures { buffer.new ≡ step_of image.now selectors.now (one_of fixup.now answer) buffer.old }
{
    loader::step(image, fixup, answer, selectors, buffer)
}

#[unsafe(no_mangle)]
pub extern "C" fn ne_list(image: &[u8], text: &mut [u8]) -> usize
    ensures { (text.new ≡ copied (lines_of image.now) text.old) × (result ≡ length (lines_of image.now)) }
{
    listing::of_any_size(image, text)
}
