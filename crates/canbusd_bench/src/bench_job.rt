ghost use Rattle.std.specs.Prelude.{◌≡◌, length, IfErr, IfOk, Ok, OnOk};
ghost use Rattle.can_fault.specs.Sources.{no_verdicts};
ghost use Rattle.can_event.specs.Events.{IsConfig};
ghost use Rattle.can_bus.specs.Legal.{IsLegal};
ghost use Rattle.can_session.specs.Runs.{EndsOver};
ghost use Rattle.canbusd_io.specs.Buses.{config_of};
ghost use Rattle.canbusd_bench.specs.Benched.{FailsAs, FailsBy, HasRun, IsBenched, IsOfOutputFiles, IsRunAsAsked, IsStopped, StopsBy, begun};

use crate::input_notes::input_note;
use crate::recent::Recent;
use crate::watch::Watch;
use can_bus::Record;
use can_event::MAX_LIMIT;
use can_fault::Perfect;
use can_frame::Names;
use can_rules::Plan;
use can_session::{BenchConfig, BenchFault, IgnoredInput, bench_noting};
use canbusd_io::{
    INPUT, OUTPUT, ProgramError, Report, bus_config, fixed_note, limits_note, read_names,
    read_plan, reason_note, save_log, save_record, without, write_failure,
};
use canbusd_options::BenchOptions;
use std::alloc::{AllocError, Global};
use std::fs;
use std::io::{Read, Write};
use std::os::unix::fs::MetadataExt;
use std::rt::Files;

/// The result of a complete run.
#[derive(Drop)]
struct Ran<'a> {
    record: Record,
    /// The report for the first refused message, if the options are strict and a message was refused.
    refusal: Option<Report<'a>>,
}

/// Runs the bench with these options and with the lines of an input. The names are checked first, then the script, and then the
/// limits of the bus. After a complete run, the output is written first, and then the record and the log. The log is written even
/// if the record could not be written; the error for the record is then reported first. `ignored` receives which sessions had input
/// outside messages. If the options are strict, a refused message is an error, which is reported last.
pub fn run_bench<'a, H: Files, R: Read + Drop, W: Write>(
    rt: &H,
    alloc: Global,
    options: &BenchOptions<'a>,
    input: R,
    output: &mut W,
    ignored: &mut IgnoredInput,
) -> Result<(), Report<'a>>
    ensures done { OnOk result
        (IsBenched W.contents options.now (R.remaining input) output.old output.new) }
    ensures fault { IfErr result (λ failure.
        FailsAs W.contents options.now (R.remaining input) output.old failure.error output.new) }
{
    match run_out(rt, alloc, options, input, output, ignored) {
        Ok(Ran { record, refusal }) => {
            save_run(rt, alloc, options, &record)?;
            match refusal {
                Some(failure) => Err(failure),
                None => Ok(()),
            }
        }
        Err(failure) => {
            let failure = without(rt, alloc, failure, "record", options.record);
            Err(without(rt, alloc, failure, "log", options.log))
        }
    }
}

// Runs the bench with these options and writes all its output, even if the run ends with an error. An error in writing the output
// is reported first.
fn run_out<'a, H: Files, R: Read + Drop, W: Write>(
    rt: &H,
    alloc: Global,
    options: &BenchOptions<'a>,
    input: R,
    output: &mut W,
    ignored: &mut IgnoredInput,
) -> Result<Ran<'a>, Report<'a>>
    ensures ran { IfOk result (λ ran.
        HasRun W.contents options.now (R.remaining input) output.old ran output.new) }
    ensures fault { IfErr result (λ failure.
        IsStopped W.contents options.now (R.remaining input) output.old failure.error
        output.new) }
{
    let names = read_names(alloc, options.bus.names)?;
    let mut watch = Watch::new(alloc, options.is_strict, output);
    let ran = run_scripted(rt, alloc, options, names, input, &mut watch, ignored);
    let (output, refusal) = watch.finish(alloc);
    output
        .flush()
        .map_err(|error| write_failure(alloc, OUTPUT, &error))?;
    let record = ran?;
    Ok(Ran { record, refusal })
}

// Writes the record and the log of a run, if the options request them. The log is never written over the record.
fn save_run<'a, H: Files>(
    rt: &H,
    alloc: Global,
    options: &BenchOptions<'a>,
    record: &Record,
) -> Result<(), Report<'a>>
    ensures { IfErr result (λ failure. IsOfOutputFiles options.now failure.error) }
{
    let recorded = match options.record {
        Some(path) => save_record(rt, alloc, path, record),
        None => Ok(()),
    };
    let logged = match options.log {
        Some(path) if is_one_file(rt, options.record, path) => {
            let note = fixed_note(alloc, "--record names this file too");
            Err(Report::with(alloc, ProgramError::CannotOpen(path), note))
        }
        Some(path) => save_log(rt, alloc, path, options.bus, record),
        None => Ok(()),
    };
    recorded?;
    logged
}

// Returns whether two paths lead to the same file, for example through links. Returns false if the files have no inode numbers.
fn is_one_file<H: Files>(rt: &H, record: Option<&str>, log: &str) -> bool {
    let Some(record) = record else {
        return false;
    };
    match (fs::metadata(rt, record), fs::metadata(rt, log)) {
        (Ok(one), Ok(other)) => {
            one.is_file() && one.ino() != 0 && one.ino() == other.ino() && one.dev() == other.dev()
        }
        _ => false,
    }
}

// Runs the bench with these names and with the faults of the script that the options name.
fn run_scripted<'a, H: Files, R: Read + Drop, W: Write>(
    rt: &H,
    alloc: Global,
    options: &BenchOptions<'a>,
    names: Names,
    input: R,
    output: &mut W,
    ignored: &mut IgnoredInput,
) -> Result<Record, Report<'a>>
    ensures run { IfOk result (λ r.
        IsRunAsAsked W.contents options.now names (R.remaining input) output.old r output.new) }
    ensures fault { IfErr result (λ failure.
        FailsBy W.contents options.now names (R.remaining input) output.old failure.error
        output.new) }
{
    let (plan, _) = read_plan(rt, alloc, options.bus, &names)?;
    run_on(alloc, options, names, plan, input, output, ignored)
}

// Runs the bench with these names and these faults.
fn run_on<'a, R: Read + Drop, W: Write>(
    alloc: Global,
    options: &BenchOptions<'_>,
    names: Names,
    plan: Plan,
    input: R,
    output: &mut W,
    ignored: &mut IgnoredInput,
) -> Result<Record, Report<'a>>
    ensures ends { IfOk result (λ r.
        EndsOver W.contents no_verdicts (R.remaining input) (begun plan options.now names)
        output.old (Ok r) output.new) }
    ensures config { IfOk result (λ r. r.config ≡ config_of options.now.settings (length names)) }
    ensures proper { IfOk result (λ r. IsConfig r.config) }
    ensures legal { IfOk result (λ r. IsLegal r.config r.history) }
    ensures fault { IfErr result (λ failure.
        StopsBy W.contents options.now names plan (R.remaining input)
        output.old failure.error output.new) }
{
    let config = BenchConfig {
        config: bus_config(options.settings, &names),
        names,
        script: Perfect,
        rx_capacity: options.settings.rx_capacity,
        timing: options.timing,
        shows_faults: options.shows_faults,
    };
    let mut input = Recent::new(alloc, input);
    match bench_noting(alloc, config, plan, &mut input, output, ignored) {
        Ok(record) => Ok(record),
        Err(fault) => {
            let notes = bench_note(alloc, fault, options, &input);
            Err(Report::with(alloc, ProgramError::Bench(fault), notes))
        }
    }
}

// Returns the notes on an error of the bench.
fn bench_note<R: Read + Drop>(
    alloc: Global,
    fault: BenchFault,
    options: &BenchOptions<'_>,
    input: &Recent<R>,
) -> Result<String, AllocError> {
    match fault {
        BenchFault::BadConfig => limits_note(alloc, &options.settings, MAX_LIMIT),
        BenchFault::BadLine(number) => match input.line(number) {
            Some(line) => {
                let is_timed = options.timing.is_some();
                input_note(alloc, INPUT, options.bus.names, is_timed, number, line)
            }
            None => Ok(String::new(alloc)),
        },
        BenchFault::TooLong => fixed_note(
            alloc,
            "the input has at most 16777216 bytes, and takes at most as many reads",
        ),
        BenchFault::Read => match input.error() {
            Some(error) => reason_note(alloc, INPUT, &error),
            None => Ok(String::new(alloc)),
        },
        BenchFault::Write => Ok(String::new(alloc)),
        BenchFault::NoMemory => fixed_note(
            alloc,
            "a run reserves 108 bytes of memory for each event of --limit",
        ),
    }
}
