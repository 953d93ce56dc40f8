//! The options and arguments of `canbusd bench`.
ghost use Rattle.std.specs.Prelude.{◌≡◌, ◌↔◌, codes, false, IfErr, IfOk, IsTrue};
ghost use Rattle.clap.specs.Words.{app_of, rule_of};
ghost use Rattle.canbusd_options.specs.BusWords.{path_of};
ghost use Rattle.canbusd_options.specs.Help.{IsNoMemory, RefusesValue};
ghost use Rattle.canbusd_options.specs.Options.{AreBenchOptions, AreOneFile, GiveBenchOptions, components_of, rows_in, path_steps};
ghost use Rattle.canbusd_options.specs.Program.{bench_app, flag_rule, option_rule};

use crate::bit_rates::timing_given;
use crate::bus_options::{
    BUS, BusSettings, Subcommand, USUAL_LIMIT, bus_argument, settings_given, with_bus_options,
};
use crate::bus_word::BusWord;
use crate::help::BENCH_HELP;
use can_wire::Timing;
use clap::{Arg, ArgAction, ArgMatches, Command, Error};
use std::alloc::{AllocError, Global};
use std::path::Path;

const RECORD: &str = "record";

const LOG: &str = "log";

const STRICT: &str = "strict";

const SHOW_FAULTS: &str = "show-faults";

/// The command line of `canbusd bench`.
#[derive(Debug, Clone, Copy)]
pub struct BenchOptions<'a> {
    pub settings: BusSettings,
    pub bus: BusWord<'a>,
    /// The bit rates of the bus, if it has any.
    pub timing: Option<Timing>,
    /// The path of the file for the record, if a record is wanted.
    pub record: Option<&'a str>,
    /// The path of the file for the log, if a log is wanted.
    pub log: Option<&'a str>,
    /// Whether a refused message counts as a fault of the run.
    pub is_strict: bool,
    /// Whether the lines of attempts show the faults and the rules that gave them.
    pub shows_faults: bool,
}

#[tactic(auto, using(crate::proofs::Rules::text_in_rows, crate::proofs::Rules::flag_in_rows))]
pub fn bench_options<'a>(alloc: Global, bench: &ArgMatches<'a>) -> Result<BenchOptions<'a>, Error>
    ensures given { IfOk result (λ options. AreBenchOptions (rows_in bench.now) options) }
    ensures taken { IfErr result (λ e. GiveBenchOptions (rows_in bench.now) → IsNoMemory e) }
    ensures refused { IfErr result RefusesValue }
{
    let settings = settings_given(alloc, Subcommand::Bench, bench, USUAL_LIMIT)?;
    let word = bench.get_str(BUS).unwrap_or("");
    let bus = BusWord::read(word);
    let timing = timing_given(alloc, Subcommand::Bench, bench, &[word], Some(bus.names))?;
    let record = bench.get_str(RECORD);
    let log = bench.get_str(LOG);
    if are_one_file(record, log) {
        let path = log.unwrap_or("");
        let message = format!(in alloc;
            "invalid value '{path}' for '--log': --record names this file"
        )?;
        return Err(Subcommand::Bench.error(alloc, &message)?);
    }
    Ok(BenchOptions {
        settings,
        bus,
        timing,
        record,
        log,
        is_strict: bench.get_flag(STRICT),
        shows_faults: bench.get_flag(SHOW_FAULTS),
    })
}

// Returns whether both paths are given and name the same file. `.` and doubled slashes make no difference, and links are not
// followed.
fn are_one_file(record: Option<&str>, log: Option<&str>) -> bool
    ensures { IsTrue result ↔ AreOneFile (path_of «record».entry) (path_of log.entry) }
{
    match (record, log) {
        (Some(record), Some(log)) => have_same_steps(without_dot(record), without_dot(log)),
        _ => false,
    }
}

// Returns whether two paths have the same steps. They do exactly if each path begins with the other.
#[tactic(auto, using(crate::proofs::Steps::both_begin, crate::proofs::Steps::begins))]
fn have_same_steps(path: Path<'_>, other: Path<'_>) -> bool
    ensures { IsTrue result ↔ (components_of path.entry ≡ components_of other.entry) }
{
    path.starts_with(other) && other.starts_with(path)
}

// Returns a path without a leading `.`.
fn without_dot(path: &str) -> Path<'_>
    ensures { components_of result ≡ path_steps path.now }
{
    let path = Path::new(path);
    path.strip_prefix(".").unwrap_or(path)
}

pub fn bench_command<'a>(alloc: Global) -> Result<Command<'a>, AllocError>
    ensures { IfOk result (λ c. app_of c ≡ bench_app) }
{
    let command = Command::new(alloc, "bench")
        .about("Carry out the lines of standard input on one bus")
        .after_help(BENCH_HELP);
    with_bus_options(alloc, command)?
        .arg(record_option(alloc))?
        .arg(log_option(alloc))?
        .arg(strict_option(alloc))?
        .arg(show_faults_option(alloc))?
        .arg(bus_argument(alloc))
}

fn record_option<'a>(alloc: Global) -> Arg<'a>
    ensures rule { rule_of result ≡ option_rule (codes "record") }
    ensures local { result.global ≡ false }
{
    Arg::new(alloc, RECORD).long(RECORD).value_name("FILE").help(
        "Write the record of the run to FILE once the input has ended; audit checks it",
    )
}

fn log_option<'a>(alloc: Global) -> Arg<'a>
    ensures rule { rule_of result ≡ option_rule (codes "log") }
    ensures local { result.global ≡ false }
{
    Arg::new(alloc, LOG).long(LOG).value_name("FILE").help(
        "Write the frames of the run to FILE once the input has ended, as candump logs them",
    )
}

fn strict_option<'a>(alloc: Global) -> Arg<'a>
    ensures rule { rule_of result ≡ flag_rule (codes "strict") }
    ensures local { result.global ≡ false }
{
    Arg::new(alloc, STRICT)
        .long(STRICT)
        .action(ArgAction::SetTrue)
        .help("End with status 1 if a message of a session was refused")
}

fn show_faults_option<'a>(alloc: Global) -> Arg<'a>
    ensures rule { rule_of result ≡ flag_rule (codes "show-faults") }
    ensures local { result.global ≡ false }
{
    Arg::new(alloc, SHOW_FAULTS)
        .long(SHOW_FAULTS)
        .action(ArgAction::SetTrue)
        .help("End the lines of attempts with their faults, and the rules that gave them")
}
