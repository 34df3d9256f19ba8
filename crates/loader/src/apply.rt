// The records of a segment applied, once all that comes before them is passed.
ghost use Rattle.std.specs.Prelude.{◌≡◌, ◌≤◌, length, take, drop};
ghost use Rattle.entry.specs.Ordinal.{table_bytes};
ghost use Rattle.entry.specs.Internal.{Indexes};
ghost use Rattle.loader.specs.Internal.{Lent, Leaves, outcome_of_job, stored_of_job};

use crate::job::Job;
use crate::{fill, records};
use entry::{Place, START};
use prepare::Rejection;

// Segments up to this length take a small array: clearing a large one would cost more than all other work on them.
const SMALL: u32 = 4096;

// Prepares a segment: one without records is copied, another is made in an array first.
pub fn segment(job: &Job, output: &mut [u8], marks: &mut [u8]) -> Result<u32, Rejection>
    requires { Lent job.now.segment output.old marks.old }
    ensures { Leaves (outcome_of_job job.now marks.old) result output.old output.new marks.old marks.new }
{
    if job.segment.records == 0 {
        fill::output(stored(job), job.segment.allocation as usize, output);
        return Ok(0);
    }
    if job.segment.stored <= SMALL {
        return in_array::<4096>(job, output, marks);
    }
    in_array::<65536>(job, output, marks)
}

// The stored bytes of a segment.
fn stored<'a>(job: &Job<'a>) -> &'a [u8]
    ensures { result.now ≡ stored_of_job job.now }
{
    let start = job.segment.start;
    &job.module.image[start..start + job.segment.stored as usize]
}

// Applies the records in an array of `N` bytes, with an index of the entry table where it saves more than it costs.
fn in_array<const N: usize>(
    job: &Job,
    output: &mut [u8],
    marks: &mut [u8],
) -> Result<u32, Rejection>
    requires lent { Lent job.now.segment output.old marks.old }
    requires room { job.now.segment.stored ≤ N }
    requires array { N ≤ 65536 }
    ensures { Leaves (outcome_of_job job.now marks.old) result output.old output.new marks.old marks.new }
{
    let mut array = [0u8; N];
    let bytes = &mut array[..job.segment.stored as usize];
    if records::few(job) {
        return in_bytes(job, &[START], bytes, output, marks);
    }
    indexed(job, bytes, output, marks)
}

// Applies the records with an index of the entry table.
fn indexed(
    job: &Job,
    bytes: &mut [u8],
    output: &mut [u8],
    marks: &mut [u8],
) -> Result<u32, Rejection>
    requires lent { Lent job.now.segment output.old marks.old }
    requires size { length bytes.old ≡ job.now.segment.stored }
    ensures { Leaves (outcome_of_job job.now marks.old) result output.old output.new marks.old marks.new }
{
    let mut ordinals = [START; 16384];
    entry::fill(entry::table(&job.module), &mut ordinals);
    in_bytes(job, &ordinals, bytes, output, marks)
}

// Applies the records in as many bytes as are stored. They go to the output once all records are known good; otherwise the marks
// are cleared again.
fn in_bytes(
    job: &Job,
    ordinals: &[Place],
    bytes: &mut [u8],
    output: &mut [u8],
    marks: &mut [u8],
) -> Result<u32, Rejection>
    requires lent { Lent job.now.segment output.old marks.old }
    requires size { length bytes.old ≡ job.now.segment.stored }
    requires index { Indexes (table_bytes job.now.module.image.now job.now.module.header) ordinals.now }
    ensures { Leaves (outcome_of_job job.now marks.old) result output.old output.new marks.old marks.new }
{
    let stored = stored(job);
    le::slice::copy(stored, bytes);
    match records::all(job, ordinals, stored, &mut marks[..stored.len()], bytes) {
        Err(rejection) => {
            le::slice::clear(marks);
            Err(rejection)
        }
        Ok(sites) => {
            fill::output(bytes, job.segment.allocation as usize, output);
            Ok(sites)
        }
    }
}
