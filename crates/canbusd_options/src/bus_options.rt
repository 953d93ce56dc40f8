//! The options of a bus, which `bench` and `serve` share. This file also has functions that read the text, the number or the flag
//! of an option.
ghost use Rattle.std.specs.Prelude.{◌≡◌, ◌↔◌, ◌≤◌, ◌^◌, codes, false, map, IfErr, IfNone, IfOk, IfSome, IsTrue};
ghost use Rattle.std.specs.Str.Parse.{IsNumeral, digits_value};
ghost use Rattle.clap.specs.Words.{app_of, kind_of, rule_of};
ghost use Rattle.clap.specs.declared.error.kind.ErrorKind.TheVariants.{ValueValidation};
ghost use Rattle.canbusd_options.specs.Help.{IsNoMemory, RefusesValue};
ghost use Rattle.canbusd_options.specs.Options.{AreSettings, GiveSettings, IsMode, IsNumber, IsNumberOfText, IsNumberWithin, value_of, given_in, given_or, mode_text, rows_in, words_given as words_of};
ghost use Rattle.canbusd_options.specs.Program.{default_rule, flag_rule, option_rule, with_bus_rules, word_rule};

use crate::audit_options::audit_command;
use crate::bench_options::bench_command;
use crate::bit_rates::with_bit_rates;
use crate::bits_options::bits_command;
use crate::serve_options::serve_command;
use can_attempt::AckMode;
use clap::error::ErrorKind;
use clap::{Arg, ArgAction, ArgMatches, Command, Error};
use std::alloc::{AllocError, Global};

const ACK: &str = "ack";

const ALWAYS: &str = "always";

const PEERS: &str = "peers";

const REPORT: &str = "report";

const TXQUEUE: &str = "txqueue";

const RXQUEUE: &str = "rxqueue";

pub const LIMIT: &str = "limit";

/// The default for the largest number of events in a run that keeps its record.
pub const USUAL_LIMIT: &str = "1000000";

const AUTO_RESTART: &str = "auto-restart";

pub const BUS: &str = "BUS";

/// The settings of a bus and of its sockets.
#[derive(Debug, Clone, Copy)]
pub struct BusSettings {
    /// Whether frames are always acknowledged or only by receivers.
    pub ack: AckMode,
    /// Whether each fault is reported to the sockets.
    pub is_reporting: bool,
    /// The number of frames that the transmit queue of an interface holds.
    pub tx_capacity: u32,
    /// The number of items that the receive queue of a socket holds.
    pub rx_capacity: u32,
    /// The largest number of events in the run.
    pub limit: u32,
    /// The number of attempts for which an interface stays bus off before it is restarted. If it is 0, the interface is restarted
    /// only on request.
    pub auto_restart: u32,
}

/// The command whose command line is read.
#[derive(Debug, Clone, Copy)]
pub enum Subcommand {
    Bench,
    Serve,
    Audit,
    Bits,
}

impl Subcommand {
    /// Returns an error in the command line of this command, with the usage of the command.
    pub fn error(self, alloc: Global, message: &str) -> Result<Error, AllocError>
        ensures { IfOk result (λ e. kind_of e ≡ ValueValidation) }
    {
        let mut command = match self {
            Subcommand::Bench => bench_command(alloc)?.bin_name("canbusd bench")?,
            Subcommand::Serve => serve_command(alloc)?.bin_name("canbusd serve")?,
            Subcommand::Audit => audit_command(alloc)?.bin_name("canbusd audit")?,
            Subcommand::Bits => bits_command(alloc)?.bin_name("canbusd bits")?,
        };
        command.error(ErrorKind::ValueValidation, message)
    }
}

/// Returns the settings of a bus from the options of a command. `limit` is the default of `--limit`.
pub fn settings_given(
    alloc: Global,
    verb: Subcommand,
    matches: &ArgMatches<'_>,
    limit: &str,
) -> Result<BusSettings, Error>
    ensures given { IfOk result (λ settings. AreSettings (rows_in matches.now) limit.now settings) }
    ensures taken { IfErr result (λ e. GiveSettings (rows_in matches.now) limit.now →
        IsNoMemory e) }
    ensures refused { IfErr result RefusesValue }
{
    Ok(BusSettings {
        ack: ack_mode(alloc, verb, matches)?,
        is_reporting: matches.get_flag(REPORT),
        tx_capacity: number_given(alloc, verb, matches, TXQUEUE, "1 to 1024")?,
        rx_capacity: number_given(alloc, verb, matches, RXQUEUE, "1 to 65536")?,
        limit: limit_given(alloc, verb, matches, limit)?,
        auto_restart: number_given(alloc, verb, matches, AUTO_RESTART, "0 to 1000000")?,
    })
}

fn ack_mode(alloc: Global, verb: Subcommand, matches: &ArgMatches<'_>) -> Result<AckMode, Error>
    ensures given { IfOk result (λ mode. given_in matches.now (codes "ack") ≡ mode_text mode) }
    ensures taken { IfErr result (λ e. IsMode (given_in matches.now (codes "ack")) → IsNoMemory e) }
    ensures refused { IfErr result RefusesValue }
{
    let text = matches.get_str(ACK).unwrap_or("");
    if text == ALWAYS {
        return Ok(AckMode::Always);
    }
    if text == PEERS {
        return Ok(AckMode::Peers);
    }
    let message = format!(in alloc; "invalid value '{text}' for '--ack': always or peers")?;
    Err(verb.error(alloc, &message)?)
}

// Returns the value of an option, which must be a number of decimal digits only. `limits` is used in the error message.
#[tactic(auto, using(crate::proofs::Rules::text_in_rows))]
fn number_given(
    alloc: Global,
    verb: Subcommand,
    matches: &ArgMatches<'_>,
    option: &str,
    limits: &str,
) -> Result<u32, Error>
    ensures given { IfOk result (λ n. IsNumberOfText n (given_in matches.now option.now)) }
    ensures taken { IfErr result (λ e. IsNumber (given_in matches.now option.now) → IsNoMemory e) }
    ensures refused { IfErr result RefusesValue }
{
    number_of(
        alloc,
        verb,
        option,
        matches.get_str(option).unwrap_or(""),
        limits,
    )
}

// Returns the value of `--limit`, or the default if the option was not given.
#[tactic(auto, using(crate::proofs::Rules::text_in_rows))]
fn limit_given(
    alloc: Global,
    verb: Subcommand,
    matches: &ArgMatches<'_>,
    default: &str,
) -> Result<u32, Error>
    ensures given { IfOk result (λ n.
        IsNumberOfText n (given_or default.now (rows_in matches.now) (codes "limit"))) }
    ensures taken { IfErr result (λ e.
        IsNumber (given_or default.now (rows_in matches.now) (codes "limit")) → IsNoMemory e) }
    ensures refused { IfErr result RefusesValue }
{
    let text = matches.get_str(LIMIT).unwrap_or(default);
    number_of(alloc, verb, LIMIT, text, "1 to 16777216")
}

// Returns the number that the value of an option spells. The value must have decimal digits only.
fn number_of(
    alloc: Global,
    verb: Subcommand,
    option: &str,
    text: &str,
    limits: &str,
) -> Result<u32, Error>
    ensures given { IfOk result (λ n. IsNumberOfText n text.now) }
    ensures taken { IfErr result (λ e. IsNumber text.now → IsNoMemory e) }
    ensures refused { IfErr result RefusesValue }
{
    match number_in(text) {
        Some(number) => Ok(number),
        None => Err(number_error(alloc, verb, option, text, limits)?),
    }
}

/// Returns the value of an option, which must be a number of decimal digits only from `least` to `most`.
#[tactic(auto, using(crate::proofs::Rules::text_in_rows))]
pub fn number_within(
    alloc: Global,
    verb: Subcommand,
    matches: &ArgMatches<'_>,
    option: &str,
    least: u32,
    most: u32,
) -> Result<u32, Error>
    ensures number { IfOk result (λ n. IsNumberOfText n (given_in matches.now option.now)) }
    ensures least { IfOk result (λ n. least ≤ n) }
    ensures most { IfOk result (λ n. n ≤ most) }
    ensures taken { IfErr result (λ e.
        IsNumberWithin least most (given_in matches.now option.now) → IsNoMemory e) }
    ensures refused { IfErr result RefusesValue }
{
    let text = matches.get_str(option).unwrap_or("");
    text_within(alloc, verb, option, text, least, most)
}

/// Returns the number that the value of an option spells. The value must have decimal digits only and be from `least` to `most`.
pub fn text_within(
    alloc: Global,
    verb: Subcommand,
    option: &str,
    text: &str,
    least: u32,
    most: u32,
) -> Result<u32, Error>
    ensures number { IfOk result (λ n. IsNumberOfText n text.now) }
    ensures least { IfOk result (λ n. least ≤ n) }
    ensures most { IfOk result (λ n. n ≤ most) }
    ensures taken { IfErr result (λ e. IsNumberWithin least most text.now → IsNoMemory e) }
    ensures refused { IfErr result RefusesValue }
{
    match number_in(text) {
        Some(number) if least <= number && number <= most => Ok(number),
        _ => {
            let limits = format!(in alloc; "{least} to {most}")?;
            Err(number_error(alloc, verb, option, text, &limits)?)
        }
    }
}

// Returns the error for an option whose value is not a number in the allowed range.
fn number_error(
    alloc: Global,
    verb: Subcommand,
    option: &str,
    text: &str,
    limits: &str,
) -> Result<Error, AllocError>
    ensures { IfOk result (λ e. kind_of e ≡ ValueValidation) }
{
    let message = format!(in alloc;
        "invalid value '{text}' for '--{option}': not a number from {limits} in decimal digits"
    )?;
    verb.error(alloc, &message)
}

// Returns the number that a text of decimal digits spells.
fn number_in(text: &str) -> Option<u32>
    ensures some { IfSome result (λ n. IsNumberOfText n text.now) }
    ensures none { IfNone result (IsNumeral 10 text.now → 2 ^ 32 ≤ digits_value 10 text.now) }
{
    if text.starts_with('+') {
        return None;
    }
    text.parse().ok()
}

/// Returns whether this flag was given.
#[tactic(auto, using(crate::proofs::Rules::text_in_rows))]
pub fn is_on(matches: &ArgMatches<'_>, flag: &str) -> bool
    ensures { IsTrue result ↔ (value_of (rows_in matches.now) flag.now ≡ codes "true") }
{
    matches.get_str(flag).unwrap_or("") == "true"
}

/// Returns all values of an option that may be given several times.
pub fn words_given<'m, 'a>(matches: &'m ArgMatches<'a>, option: &str) -> &'m [&'a str]
    ensures { map (λ word. word.now) result.now ≡ words_of (rows_in matches.now) option.now }
{
    matches.get_strs(option).unwrap_or_default()
}

/// Adds the options of a bus to a command.
pub fn with_bus_options<'a>(alloc: Global, command: Command<'a>) -> Result<Command<'a>, AllocError>
    ensures { IfOk result (λ c. app_of c ≡ with_bus_rules (app_of command.entry)) }
{
    let tx_help = "Frames that an interface keeps to be sent, 1 to 1024";
    let rx_help = "Frames that a socket keeps to be received, 1 to 65536";
    let limit_help =
        "Calls and attempts of the run, 1 to 16777216, of 32 bytes of memory each, 108 with an FD frame [default: 1000000]";
    let restart_help =
        "Restart an interface in the Nth attempt after it went bus off, 1 to 1000000, or never (0)";
    let bitrate_help =
        "Bits a second, 5000 to 1000000: attempts take the time of their bits; with NAME= only of that interface's bus [default: no time]";
    let command = command
        .arg(ack_option(alloc))?
        .arg(report_option(alloc))?
        .arg(number_option(alloc, TXQUEUE, "N", "10", tx_help))?
        .arg(number_option(alloc, RXQUEUE, "N", "256", rx_help))?
        .arg(free_option(alloc, LIMIT, "N", limit_help))?
        .arg(number_option(alloc, AUTO_RESTART, "N", "0", restart_help))?;
    with_bit_rates(alloc, command, bitrate_help)
}

fn ack_option<'a>(alloc: Global) -> Arg<'a>
    ensures rule { rule_of result ≡ default_rule (codes "ack") (codes "always") }
    ensures local { result.global ≡ false }
{
    Arg::new(alloc, ACK)
        .long(ACK)
        .value_name("MODE")
        .default_value(ALWAYS)
        .help(
            "Frames are acknowledged by a silent node (always), or only by the other interfaces (peers)",
        )
}

fn report_option<'a>(alloc: Global) -> Arg<'a>
    ensures rule { rule_of result ≡ flag_rule (codes "report") }
    ensures local { result.global ≡ false }
{
    Arg::new(alloc, REPORT)
        .long(REPORT)
        .action(ArgAction::SetTrue)
        .help("Make error message frames of each fault too, not only of changes of state")
}

/// Returns an option whose value is a number, with a default.
pub fn number_option<'a>(
    alloc: Global,
    name: &'a str,
    value: &'a str,
    default: &'a str,
    help: &'a str,
) -> Arg<'a>
    ensures rule { rule_of result ≡ default_rule name.entry.now default.entry.now }
    ensures local { result.global ≡ false }
{
    Arg::new(alloc, name)
        .long(name)
        .value_name(value)
        .default_value(default)
        .help(help)
}

/// Returns an option without a default.
pub fn free_option<'a>(alloc: Global, name: &'a str, value: &'a str, help: &'a str) -> Arg<'a>
    ensures rule { rule_of result ≡ option_rule name.entry.now }
    ensures local { result.global ≡ false }
{
    Arg::new(alloc, name)
        .long(name)
        .value_name(value)
        .help(help)
}

/// Returns the argument BUS, which comes last in `bench` and is repeated at the end of `serve`.
pub fn bus_argument<'a>(alloc: Global) -> Arg<'a>
    ensures rule { rule_of result ≡ word_rule (codes "BUS") }
    ensures local { result.global ≡ false }
{
    Arg::new(alloc, BUS).required(true).help(
        "Names of 1 to 16 interfaces, joined by commas; @FILE after them is a script of faults",
    )
}
