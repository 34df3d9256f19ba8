// The results that two calls share, and those of the header and of preparing.
ghost use Rattle.std.specs.Prelude.{◌≡◌};
ghost use Rattle.header.specs.Values as header;
ghost use Rattle.names.specs.Values as names;
ghost use Rattle.resources.specs.Values as resources;
ghost use Rattle.prepare.specs.Prepare as prepared;
ghost use Rattle.ne.specs.Fields.{header_fields, name_fields, resource_fields, prepare_fields};
ghost use Rattle.ne.specs.Internal.{NameFits};

use crate::{NeHeader, NeName, NePrepare, NeResource};
use header::Header;
use names::Name;
use prepare::Rejection;
use refusal::Refusal;
use resources::Resource;

pub fn header(answer: Result<Header, Refusal>) -> NeHeader
    ensures { header_fields result ≡ header.values_of answer }
{
    match answer {
        Err(why) => NeHeader {
            refusal: u32::from(why),
            ..NeHeader::default()
        },
        Ok(h) => NeHeader {
            refusal: 0,
            header_at: h.ne,
            unit: h.unit,
            segments_at: h.segments.at,
            segments: h.segments.count,
            modules_at: h.modules.at,
            modules: h.modules.count,
            entries_at: h.entries.at,
            entries_len: h.entries.count,
            nonresident_at: h.nonresident.at,
            nonresident_len: h.nonresident.count,
            resident_at: h.resident,
            imported_at: h.imported,
            resources_at: h.resources,
        },
    }
}

pub fn name(answer: Result<Name, Refusal>) -> NeName
    requires { NameFits answer }
    ensures { name_fields result ≡ names.values_of answer }
{
    match answer {
        Err(why) => NeName {
            refusal: u32::from(why),
            ..NeName::default()
        },
        Ok(n) => NeName {
            refusal: 0,
            number: n.number as u32,
            text_at: n.at as u32,
            text_len: n.len as u32,
            ordinal: n.ordinal as u32,
        },
    }
}

pub fn resource(answer: Result<Resource, Refusal>) -> NeResource
    ensures { resource_fields result ≡ resources.values_of answer }
{
    match answer {
        Err(why) => NeResource {
            refusal: u32::from(why),
            ..NeResource::default()
        },
        Ok(r) => NeResource {
            refusal: 0,
            kind: r.kind as u32,
            id: r.id as u32,
            flags: r.flags as u32,
            data_at: r.at,
            data_len: r.len,
        },
    }
}

pub fn prepared(answer: Result<u32, Rejection>) -> NePrepare
    ensures { prepare_fields result ≡ prepared.values_of answer }
{
    match answer {
        Err(rejection) => NePrepare {
            refusal: u32::from(rejection.why),
            record: rejection.number,
            sites: 0,
        },
        Ok(sites) => NePrepare {
            refusal: 0,
            record: 0,
            sites,
        },
    }
}
