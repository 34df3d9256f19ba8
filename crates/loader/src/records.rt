// The records of a segment, one after the other.
ghost use Rattle.std.specs.Prelude.{◌≡◌, ◌*◌, ◌<◌, leb};
ghost use Rattle.entry.specs.Ordinal.{table_bytes};
ghost use Rattle.entry.specs.Internal.{Indexes};
ghost use Rattle.follow.specs.Internal.{passed, action_pass, SameSize};
ghost use Rattle.loader.specs.Internal.{ran, run_from, action_of_job, actions_of_job};

use crate::job::Job;
use entry::Place;
use prepare::Rejection;
use refusal::Refusal;

// Up to this many records, times bytes of the entry table, looking ordinals up from the table's start costs no more than an index.
const LITTLE: usize = 1024;

// Whether there is so little to look up that an index would cost more than it saves.
pub fn few(job: &Job) -> bool
    ensures { result ≡ leb (job.now.segment.records * job.now.module.header.entries.count) 1024 }
{
    job.segment.records as usize * job.module.header.entries.count as usize <= LITTLE
}

// Goes over all records of a segment, with an index of the entry table, `ordinals`: each record is resolved, and its sites are
// claimed in the marks and written into `bytes`. Both have a byte for each stored one.
#[tactic(auto, using(crate::proofs::Turns::run_goes_on, crate::proofs::Turns::run_stops, crate::proofs::Turns::run_ends))]
pub fn all(
    job: &Job,
    ordinals: &[Place],
    stored: &[u8],
    marks: &mut [u8],
    bytes: &mut [u8],
) -> Result<u32, Rejection>
    requires same_size { SameSize stored.now marks.old bytes.old }
    requires index { Indexes (table_bytes job.now.module.image.now job.now.module.header) ordinals.now }
    ensures { ran result marks.new bytes.new ≡ run_from stored.now (actions_of_job job.now) 1 0 marks.old bytes.old }
{
    let mut sites = 0;
    for index in 0..job.segment.records {
        match one(job, ordinals, stored, index, sites, marks, bytes) {
            Ok(done) => sites = done,
            Err(why) => {
                return Err(Rejection {
                    why,
                    number: index as u32 + 1,
                });
            }
        }
    }
    Ok(sites)
}

// Goes over the sites of the record of an index, after `done` earlier ones, and answers how many there are then.
#[tactic(auto, using(crate::proofs::Sound::checked))]
fn one(
    job: &Job,
    ordinals: &[Place],
    stored: &[u8],
    index: u16,
    done: u32,
    marks: &mut [u8],
    bytes: &mut [u8],
) -> Result<u32, Refusal>
    requires same_size { SameSize stored.now marks.old bytes.old }
    requires index { Indexes (table_bytes job.now.module.image.now job.now.module.header) ordinals.now }
    requires there { index < job.now.segment.records }
    ensures { passed result marks.new bytes.new ≡ action_pass stored.now (action_of_job job.now index) done marks.old bytes.old }
{
    let record = target::record(le::slice::from(job.module.image, job.segment.list), index);
    let answer = job.answers[index as usize];
    let action = target::action(&job.module, ordinals, job.selectors, answer, record);
    follow::action(stored, action, done, marks, bytes)
}
