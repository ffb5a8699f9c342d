// Pages that arrive as raw Netpbm grey files (P5).
ghost use Rattle.std.specs.Prelude.{◌≡◌};
ghost use Rattle.job.specs.Job.{lengths};
ghost use Rattle.file.specs.Reading.{reading_alone};
ghost use Rattle.file.specs.FileJob.{delivery, file_output_after, file_scratch_after};
ghost use Rattle.sotrugla.specs.Files.{pgm_read_of, pgm_run_of};

use file::Finished;
use pgm::Header;
use refusal::Refused;
use refusal::report::refusal_number;

// What is told of a file: refusal is 0 for one that is read, and the other numbers are zero at a refusal.
#[repr(C)]
#[derive(Clone, Copy)]
pub struct PgmRead {
    pub refusal: u64,
    pub place: u64,
    pub width: u64,
    pub height: u64,
    pub maximum: u64,
    pub start: u64,
}

// What became of a job on a file: refusal is 0 for a finished one, whose file has so many bytes.
#[repr(C)]
#[derive(Clone, Copy)]
pub struct PgmRun {
    pub refusal: u64,
    pub place: u64,
    pub work: u64,
    pub length: u64,
}

fn pgm_read_of(read: Result<Header, Refused>) -> PgmRead
    ensures { result ≡ pgm_read_of read }
{
    match read {
        Ok(header) => PgmRead {
            refusal: 0,
            place: 0,
            width: header.width as u64,
            height: header.height as u64,
            maximum: header.maximum as u64,
            start: header.start as u64,
        },
        Err(refused) => PgmRead {
            refusal: refusal_number(refused.refusal) as u64,
            place: refused.at as u64,
            width: 0,
            height: 0,
            maximum: 0,
            start: 0,
        },
    }
}

fn pgm_run_of(run: Result<Finished, Refused>) -> PgmRun
    ensures { result ≡ pgm_run_of run }
{
    match run {
        Ok(finished) => PgmRun {
            refusal: 0,
            place: 0,
            work: finished.work,
            length: finished.length as u64,
        },
        Err(refused) => PgmRun {
            refusal: refusal_number(refused.refusal) as u64,
            place: refused.at as u64,
            work: 0,
            length: 0,
        },
    }
}

// Reads a file alone: its sides, its maximum, and the place of its first pixel. Refusals 15, 16, 17, then 10.
#[unsafe(no_mangle)]
pub extern "C" fn sotrugla_read_pgm(file: &[u8]) -> PgmRead
    ensures { result ≡ pgm_read_of (reading_alone file.now) }
{
    pgm_read_of(file::read::read(file))
}

// Filters the page of a file as the ticket says, and writes the file of the finished page from the output's first byte
// on.
#[unsafe(no_mangle)]
pub extern "C" fn sotrugla_run_pgm(
    ticket: &[u8],
    file: &[u8],
    output: &mut [u8],
    scratch: &mut [u8],
) -> PgmRun
    ensures answered { result ≡ pgm_run_of (delivery ticket.now file.now
        (lengths file.now output.old scratch.old)) }
    ensures written { output.new ≡ file_output_after ticket.now file.now
        output.old scratch.old }
    ensures cleared { scratch.new ≡ file_scratch_after ticket.now file.now
        output.old scratch.old }
{
    pgm_run_of(file::run::run(ticket, file, output, scratch))
}
