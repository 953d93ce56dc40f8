//! The options and arguments of `canbusd audit`.
ghost use Rattle.std.specs.Prelude.{◌≡◌, codes, false, map, IfErr, IfOk};
ghost use Rattle.clap.specs.Words.{app_of, kind_of, rule_of};
ghost use Rattle.clap.specs.declared.error.kind.ErrorKind.TheVariants.{ValueValidation};
ghost use Rattle.canbusd_options.specs.Help.{IsNoMemory, RefusesValue};
ghost use Rattle.canbusd_options.specs.Options.{AreAuditOptions, AreFaults, GiveAuditOptions, GiveAuditTiming, GiveFaults, GiveOutput, IsAuditTimed, IsOutput, files_given as files_of, rows_in};
ghost use Rattle.canbusd_options.specs.Program.{audit_app, flag_rule, words_rule};

use crate::bit_rates::{timing_given, with_bit_rates};
use crate::bus_options::{Subcommand, free_option, is_on, words_given};
use crate::bus_word::{BusWord, FaultsWord};
use crate::help::AUDIT_HELP;
use can_wire::Timing;
use clap::{Arg, ArgAction, ArgMatches, Command, Error};
use std::alloc::{AllocError, Global};

const CUT: &str = "cut";

const EVENTS: &str = "events";

const FAULTS: &str = "faults";

const FILE: &str = "FILE";

/// The command line of `canbusd audit`.
#[derive(Debug, Drop)]
pub struct AuditOptions<'a> {
    /// The paths of the files whose joined contents are the text of a record.
    pub files: Vec<&'a str>,
    /// Whether the text may end before the record does.
    pub is_cut: bool,
    /// The output of the audit.
    pub output: AuditOutput<'a>,
}

/// The output after an audit of a legal record.
#[derive(Debug, Clone, Copy)]
pub enum AuditOutput<'a> {
    /// The number of entries in the record.
    Count,
    /// The events that resulted from the entries.
    Events(EventsAsked<'a>),
}

/// The bit rates and the faults of a run. If they are given, the lines of attempts have more fields.
#[derive(Debug, Clone, Copy)]
pub struct EventsAsked<'a> {
    /// The bit rates of the bus, if they are given. They determine when each attempt was on the wire.
    pub timing: Option<Timing>,
    /// The faults that the bus had, if they are given. They show which rule gave each verdict.
    pub faults: Option<FaultsWord<'a>>,
}

#[tactic(auto, using(crate::proofs::Rules::flag_in_rows))]
pub fn audit_options<'a>(alloc: Global, audit: &ArgMatches<'a>) -> Result<AuditOptions<'a>, Error>
    ensures given { IfOk result (λ options. AreAuditOptions (rows_in audit.now) options) }
    ensures taken { IfErr result (λ e. GiveAuditOptions (rows_in audit.now) → IsNoMemory e) }
    ensures refused { IfErr result RefusesValue }
{
    Ok(AuditOptions {
        files: files_given(alloc, audit)?,
        is_cut: audit.get_flag(CUT),
        output: output_given(alloc, audit)?,
    })
}

// Returns the output that the command line asks for.
fn output_given<'a>(alloc: Global, audit: &ArgMatches<'a>) -> Result<AuditOutput<'a>, Error>
    ensures given { IfOk result (λ output. IsOutput (rows_in audit.now) output) }
    ensures taken { IfErr result (λ e. GiveOutput (rows_in audit.now) → IsNoMemory e) }
    ensures refused { IfErr result RefusesValue }
{
    let timing = audit_timing(alloc, audit)?;
    let faults = faults_given(alloc, audit)?;
    if is_on(audit, EVENTS) {
        return Ok(AuditOutput::Events(EventsAsked { timing, faults }));
    }
    if timing.is_some() {
        return Err(Subcommand::Audit.error(alloc, "'--bitrate' needs '--events'")?);
    }
    if faults.is_some() {
        return Err(Subcommand::Audit.error(alloc, "'--faults' needs '--events'")?);
    }
    Ok(AuditOutput::Count)
}

// Returns the bit rates of the bus, if they are given. A record contains no names, so the names of the bus are taken from
// `--faults`.
#[tactic(auto, using(crate::proofs::Rules::text_in_rows))]
fn audit_timing(alloc: Global, audit: &ArgMatches<'_>) -> Result<Option<Timing>, Error>
    ensures given { IfOk result (λ timing. IsAuditTimed (rows_in audit.now) timing) }
    ensures taken { IfErr result (λ e. GiveAuditTiming (rows_in audit.now) → IsNoMemory e) }
    ensures refused { IfErr result RefusesValue }
{
    match audit.get_str(FAULTS) {
        Some(word) => {
            let names = BusWord::read(word).names;
            timing_given(alloc, Subcommand::Audit, audit, &[word], Some(names))
        }
        None => timing_given(alloc, Subcommand::Audit, audit, &[], None),
    }
}

// Returns the faults that the bus had, if they are given.
#[tactic(auto, using(crate::proofs::Rules::text_in_rows))]
fn faults_given<'a>(alloc: Global, audit: &ArgMatches<'a>) -> Result<Option<FaultsWord<'a>>, Error>
    ensures given { IfOk result (λ faults. AreFaults (rows_in audit.now) faults) }
    ensures taken { IfErr result (λ e. GiveFaults (rows_in audit.now) → IsNoMemory e) }
    ensures refused { IfErr result RefusesValue }
{
    let Some(word) = audit.get_str(FAULTS) else {
        return Ok(None);
    };
    match FaultsWord::read(word) {
        Some(faults) => Ok(Some(faults)),
        None => Err(no_file_error(alloc, word)?),
    }
}

// Returns the error for a `--faults` value that has names but no file.
fn no_file_error(alloc: Global, word: &str) -> Result<Error, AllocError>
    ensures { IfOk result (λ e. kind_of e ≡ ValueValidation) }
{
    let message = format!(in alloc;
        "invalid value '{word}' for '--faults': NAMES@FILE, where FILE is the script of faults"
    )?;
    Subcommand::Audit.error(alloc, &message)
}

fn files_given<'a>(alloc: Global, audit: &ArgMatches<'a>) -> Result<Vec<&'a str>, AllocError>
    ensures { IfOk result (λ files.
        map (λ file. file.now) files.items ≡ files_of (rows_in audit.now)) }
{
    Vec::from_slice(alloc, words_given(audit, FILE))
}

pub fn audit_command<'a>(alloc: Global) -> Result<Command<'a>, AllocError>
    ensures { IfOk result (λ c. app_of c ≡ audit_app) }
{
    let bitrate_help =
        "Bits a second, 5000 to 1000000: write how long each attempt is on the wire; needs --events";
    let faults_help =
        "Names and script of faults of the run: write which rule gave each attempt its verdict; needs --events";
    let command = Command::new(alloc, "audit")
        .about("Check that a record is a legal history of a bus")
        .after_help(AUDIT_HELP)
        .arg(cut_option(alloc))?
        .arg(events_option(alloc))?;
    with_bit_rates(alloc, command, bitrate_help)?
        .arg(free_option(alloc, FAULTS, "NAMES@FILE", faults_help))?
        .arg(files_argument(alloc))
}

fn cut_option<'a>(alloc: Global) -> Arg<'a>
    ensures rule { rule_of result ≡ flag_rule (codes "cut") }
    ensures local { result.global ≡ false }
{
    Arg::new(alloc, CUT)
        .long(CUT)
        .action(ArgAction::SetTrue)
        .help("Audit a record that is cut off, as far as it reaches")
}

fn events_option<'a>(alloc: Global) -> Arg<'a>
    ensures rule { rule_of result ≡ flag_rule (codes "events") }
    ensures local { result.global ≡ false }
{
    Arg::new(alloc, EVENTS)
        .long(EVENTS)
        .action(ArgAction::SetTrue)
        .help("Write each legal entry with its effects")
}

fn files_argument<'a>(alloc: Global) -> Arg<'a>
    ensures rule { rule_of result ≡ words_rule (codes "FILE") }
    ensures local { result.global ≡ false }
{
    Arg::new(alloc, FILE).required(true).num_args(1..).help(
        "A record that bench or serve wrote; several are read as one text",
    )
}
