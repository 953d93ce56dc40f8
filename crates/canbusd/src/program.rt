ghost use Rattle.std.specs.Prelude.{◌≡◌, ◌≤◌, [], IfOk, IsOk, IsTrue, map, string_bytes};
ghost use Rattle.std.specs.Io.Buffered.{writer_buffer, writer_contents};
ghost use Rattle.std.specs.Io.KnownBytes.{Keeps};
ghost use Rattle.canbusd.specs.Outcomes.{IsDone, Succeeds};
ghost use Rattle.canbusd_options.specs.Help.{IsNoMemory, ShowsHelp};
ghost use Rattle.canbusd_options.specs.Program.{AskJob};

use crate::bits_job::write_bits;
use can_session::IgnoredInput;
use canbusd_audit::audit_files;
use canbusd_bench::{run_bench, tell_ignored};
use canbusd_io::{OUTPUT, ProgramError, Report, write_failure};
use canbusd_options::{Job, read_options};
use canbusd_serve::{ServerRuntime, run_serve};
use clap::Error;
use clap::error::ErrorKind;
use std::alloc::Global;
use std::io::{BufWriter, Read, Write};

const DONE: u8 = 0;

const FAILED: u8 = 1;

const BAD_WORDS: u8 = 2;

/// Carries out a command line, which begins with the program's name, and returns its exit status. Status 0 means that the requested
/// job was done, or help was requested, and all output was written. Status 1 means an error: a line `canbusd: TEXT` and its notes
/// are written to `errors`. If not all output was written, the status is 1 and the error message is `write fault`. Status 2 means
/// that the command line does not request a job, and the error message is the parser's. A server may wait for its clients
/// indefinitely. Other jobs wait only for their input.
pub fn run_words<
    H: ServerRuntime,
    R: Read + Drop + Send + 'static,
    W: Write + Drop,
    E: Write + Send,
>(
    rt: &H,
    alloc: Global,
    words: &[String],
    input: R,
    output: &mut BufWriter<W>,
    errors: &mut E,
) -> u8
    ensures status { result ≤ 2 }
    ensures done { result ≡ 0 → Succeeds (writer_contents W.contents)
        (map string_bytes words.now) (R.remaining input) output.old output.new }
    ensures flushed { result ≡ 0 → writer_buffer output.new ≡ [] }
    ensures words { result ≡ 2 → ¬ (AskJob (map string_bytes words.now)) }
{
    match read_options(alloc, words) {
        Ok(job) => carry_out(rt, alloc, job, input, output, errors),
        Err(error) => tell_words(alloc, &error, output, errors),
    }
}

// Carries out a job and returns the exit status.
fn carry_out<H: ServerRuntime, R: Read + Drop + Send + 'static, W: Write + Drop, E: Write + Send>(
    rt: &H,
    alloc: Global,
    job: Job<'_>,
    input: R,
    output: &mut BufWriter<W>,
    errors: &mut E,
) -> u8
    ensures status { result ≤ 1 }
    ensures done { result ≡ 0 →
        IsDone (writer_contents W.contents) job.entry (R.remaining input) output.old output.new }
    ensures flushed { result ≡ 0 → writer_buffer output.new ≡ [] }
{
    let mut ignored = IgnoredInput::none();
    let outcome = match do_job(rt, alloc, job, input, output, errors, &mut ignored) {
        Ok(false) => return FAILED,
        Ok(true) => Ok(()),
        Err(failure) => Err(failure),
    };
    let status = finish(alloc, outcome, output, errors);
    if status == DONE {
        tell_ignored(&ignored, errors);
    }
    status
}

// Does a job. Returns whether the whole job was done. If it was not, each fault has been reported.
fn do_job<'a, H: ServerRuntime, R: Read + Drop + Send + 'static, W: Write + Drop, E: Write + Send>(
    rt: &H,
    alloc: Global,
    job: Job<'a>,
    input: R,
    output: &mut BufWriter<W>,
    errors: &mut E,
    ignored: &mut IgnoredInput,
) -> Result<bool, Report<'a>>
    ensures { IfOk result (λ whole. IsTrue whole →
        IsDone (writer_contents W.contents) job.entry (R.remaining input) output.old output.new) }
{
    match job {
        Job::Bench(options) => run_bench(rt, alloc, &options, input, output, ignored)?,
        Job::Audit(options) => audit_files(rt, alloc, &options, output, errors)?,
        Job::Bits(options) => write_bits(alloc, &options, output)?,
        Job::Serve(options) => return run_serve(rt, alloc, &options, input, output, errors),
    }
    Ok(true)
}

// Reports an error in the command line, or writes the help that it requests. Returns the exit status.
fn tell_words<W: Write + Drop, E: Write>(
    alloc: Global,
    error: &Error,
    output: &mut BufWriter<W>,
    errors: &mut E,
) -> u8
    ensures status { result ≤ 2 }
    ensures shown { result ≡ 0 → ShowsHelp error.now }
    ensures words { result ≡ 2 → ¬ (IsNoMemory error.now) }
    ensures flushed { result ≡ 0 → writer_buffer output.new ≡ [] }
{
    if error.kind() == ErrorKind::OutOfMemory {
        return fail(&Report::new(alloc, ProgramError::NoMemory), errors);
    }
    if error.use_stderr() {
        let _ = write!(errors, "{error}");
        return BAD_WORDS;
    }
    let outcome = write!(output, "{error}").map_err(|error| write_failure(alloc, OUTPUT, &error));
    finish(alloc, outcome, output, errors)
}

// Flushes the output, even if the job failed, and reports an error in doing so. Returns the exit status.
fn finish<W: Write + Drop, E: Write>(
    alloc: Global,
    outcome: Result<(), Report<'_>>,
    output: &mut BufWriter<W>,
    errors: &mut E,
) -> u8
    ensures status { result ≤ 1 }
    ensures done { result ≡ 0 → IsOk outcome.entry }
    ensures flushed { result ≡ 0 → writer_buffer output.new ≡ [] }
    ensures kept { Keeps (writer_contents W.contents output.old)
        (writer_contents W.contents output.new) }
{
    if let Err(error) = output.flush() {
        let late = write_failure(alloc, OUTPUT, &error);
        return fail(&write_fault(outcome, late), errors);
    }
    match outcome {
        Ok(()) => DONE,
        Err(failure) => fail(&failure, errors),
    }
}

// Returns the report for output that was not written: the report of the job if it concerns writing, and otherwise `late`.
fn write_fault<'a>(outcome: Result<(), Report<'a>>, late: Report<'a>) -> Report<'a> {
    let Err(failure) = outcome else {
        return late;
    };
    let error = failure.error;
    if error == ProgramError::Write {
        failure
    } else {
        late
    }
}

/// Reports the error of a command line and returns the exit status.
pub fn fail<E: Write>(failure: &Report<'_>, errors: &mut E) -> u8
    ensures { result ≡ 1 }
{
    failure.write_to(errors);
    FAILED
}
