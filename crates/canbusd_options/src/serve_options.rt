//! The options and arguments of `canbusd serve`.
ghost use Rattle.std.specs.Prelude.{◌≡◌, ◌≤◌, codes, false, is_some, map, All, IfErr, IfOk, Some};
ghost use Rattle.std.specs.List.{AllZip, list_any};
ghost use Rattle.clap.specs.Words.{app_of, rule_of};
ghost use Rattle.canbusd_options.specs.BusWords.{names_part};
ghost use Rattle.canbusd_options.specs.Help.{IsNoMemory, RefusesValue};
ghost use Rattle.canbusd_options.specs.Options.{AreBusWords, AreServeOptions, AreTimed, GiveRatesOf, GiveServeOptions, GiveTimings, HasRatesFor, IsNumberOfText, IsNumberWithin, given_or, rows_in, timing_at};
ghost use Rattle.canbusd_options.specs.Program.{default_rule, flag_rule, option_rule, serve_app, words_rule};

use crate::bit_rates::GivenRates;
use crate::bus_options::{
    BUS, BusSettings, Subcommand, bus_argument, free_option, is_on, number_option, number_within,
    settings_given, text_within, with_bus_options, words_given,
};
use crate::bus_word::BusWord;
use crate::help::SERVE_HELP;
use crate::recording::{END, RECORD, Recording, recording_given};
use can_wire::Timing;
use clap::{Arg, ArgAction, ArgMatches, Command, Error};
use std::alloc::{AllocError, Global};

const LISTEN: &str = "listen";

const SESSIONS: &str = "sessions";

const PACE: &str = "pace";

const WRITE: &str = "write";

pub const OUT: &str = "out";

pub const FLUSH: &str = "flush";

pub const SYNC: &str = "sync";

const UNTIL_EOF: &str = "until-eof";

const VERBOSE: &str = "verbose";

const MOST_PACE: u32 = 60_000;

const MOST_FLUSH: u32 = 60_000;

const USUAL_FLUSH: &str = "100";

const LEAST_WRITE: u32 = 256;

const MOST_WRITE: u32 = 65_536;

/// The command line of `canbusd serve`.
#[derive(Debug, Drop)]
pub struct ServeOptions<'a> {
    pub settings: BusSettings,
    pub buses: Vec<BusWord<'a>>,
    /// The bit rates of each bus, in the order of the buses. A bus without bit rates has `None`.
    pub timings: Vec<Option<Timing>>,
    /// The address at which the server listens. It is a Unix path if it begins with `/` or `.`, and otherwise a host and a port.
    pub address: &'a str,
    /// The number of sessions that the server accepts, from 1 to 4,000, or to 4,294,967,295 in long runs. The default is the
    /// largest number.
    pub sessions: u32,
    /// The pause in milliseconds after each attempt of a bus without bit rates, at most 60,000.
    pub pace_ms: u32,
    /// The largest number of bytes of frames in one write to a client, from 256 to 65,536.
    pub write_bytes: u32,
    /// The folder for logs and records, if they are wanted.
    pub folder: Option<&'a str>,
    /// When records are written.
    pub recording: Recording,
    /// The largest time in milliseconds for which live text waits before it is written to its file, at most 60,000.
    pub flush_ms: u32,
    /// Whether each write of live text waits until the text is on the disk.
    pub is_synced: bool,
    /// Whether the end of standard input ends the run.
    pub is_until_eof: bool,
    /// Whether sessions and changes of the buses are reported while the server runs.
    pub is_verbose: bool,
}

impl ServeOptions<'_> {
    /// Returns the bit rates of the bus at this index, if it has any.
    pub fn timing_at(&self, place: usize) -> Option<Timing>
        ensures { result ≡ timing_at self.now.timings.items place }
    {
        *self.timings.get(place)?
    }

    /// Returns whether any bus has bit rates.
    pub fn has_timings(&self) -> bool
        ensures { result ≡ list_any is_some self.now.timings.items }
    {
        self.timings.iter().any(|timing| timing.is_some())
    }
}

pub fn serve_options<'a>(alloc: Global, serve: &ArgMatches<'a>) -> Result<ServeOptions<'a>, Error>
    ensures given { IfOk result (λ options. AreServeOptions (rows_in serve.now) options) }
    ensures taken { IfErr result (λ e. GiveServeOptions (rows_in serve.now) → IsNoMemory e) }
    ensures refused { IfErr result RefusesValue }
{
    let recording = recording_given(alloc, serve)?;
    let (usual, most) = (recording.usual_sessions(), recording.most_sessions());
    let words = words_given(serve, BUS);
    Ok(ServeOptions {
        settings: settings_given(alloc, Subcommand::Serve, serve, recording.limit())?,
        timings: timings_given(alloc, serve, words)?,
        buses: read_buses(alloc, words)?,
        address: serve.get_str(LISTEN).unwrap_or(""),
        sessions: sessions_given(alloc, serve, usual, most)?,
        pace_ms: number_within(alloc, Subcommand::Serve, serve, PACE, 0, MOST_PACE)?,
        write_bytes: number_within(
            alloc,
            Subcommand::Serve,
            serve,
            WRITE,
            LEAST_WRITE,
            MOST_WRITE,
        )?,
        folder: serve.get_str(OUT),
        recording,
        flush_ms: flush_given(alloc, serve)?,
        is_synced: is_on(serve, SYNC),
        is_until_eof: serve.get_flag(UNTIL_EOF),
        is_verbose: serve.get_flag(VERBOSE),
    })
}

// Returns the number of sessions that the server accepts.
#[tactic(auto, using(crate::proofs::Rules::text_in_rows))]
fn sessions_given(
    alloc: Global,
    serve: &ArgMatches<'_>,
    usual: &str,
    most: u32,
) -> Result<u32, Error>
    ensures number { IfOk result (λ n.
        IsNumberOfText n (given_or usual.now (rows_in serve.now) (codes "sessions"))) }
    ensures some { IfOk result (λ n. 1 ≤ n) }
    ensures few { IfOk result (λ n. n ≤ most) }
    ensures taken { IfErr result (λ e.
        IsNumberWithin 1 most (given_or usual.now (rows_in serve.now) (codes "sessions"))
        → IsNoMemory e) }
    ensures refused { IfErr result RefusesValue }
{
    let text = serve.get_str(SESSIONS).unwrap_or(usual);
    text_within(alloc, Subcommand::Serve, SESSIONS, text, 1, most)
}

// Returns the largest time in milliseconds for which live text may wait.
#[tactic(auto, using(crate::proofs::Rules::text_in_rows))]
fn flush_given(alloc: Global, serve: &ArgMatches<'_>) -> Result<u32, Error>
    ensures number { IfOk result (λ n.
        IsNumberOfText n (given_or (codes "100") (rows_in serve.now) (codes "flush"))) }
    ensures most { IfOk result (λ n. n ≤ 60000) }
    ensures taken { IfErr result (λ e.
        IsNumberWithin 0 60000 (given_or (codes "100") (rows_in serve.now) (codes "flush"))
        → IsNoMemory e) }
    ensures refused { IfErr result RefusesValue }
{
    let text = serve.get_str(FLUSH).unwrap_or(USUAL_FLUSH);
    text_within(alloc, Subcommand::Serve, FLUSH, text, 0, MOST_FLUSH)
}

// Returns the bit rates of the buses, which are given as BUS arguments.
fn timings_given(
    alloc: Global,
    serve: &ArgMatches<'_>,
    words: &[&str],
) -> Result<Vec<Option<Timing>>, Error>
    ensures given { IfOk result (λ timings.
        AreTimed (rows_in serve.now) (map (λ word. word.now) words.now) timings.items) }
    ensures taken { IfErr result (λ e.
        GiveTimings (rows_in serve.now) (map (λ word. word.now) words.now) → IsNoMemory e) }
    ensures refused { IfErr result RefusesValue }
{
    let rates = GivenRates::read(alloc, Subcommand::Serve, serve, words)?;
    let timings = read_timings(alloc, &rates, words)?;
    rates.check_numbers(alloc)?;
    Ok(timings)
}

fn read_timings(
    alloc: Global,
    rates: &GivenRates<'_, '_>,
    words: &[&str],
) -> Result<Vec<Option<Timing>>, Error>
    ensures given { IfOk result (λ timings.
        AllZip (HasRatesFor rates.now) (map (λ word. word.now) words.now) timings.items) }
    ensures taken { IfErr result (λ e. All (λ word. GiveRatesOf rates.now (Some (names_part word)))
        (map (λ word. word.now) words.now) → IsNoMemory e) }
    ensures refused { IfErr result RefusesValue }
{
    let mut timings = Vec::new(alloc);
    for word in words {
        let timing = rates.timing(alloc, Some(BusWord::read(word).names))?;
        timings.push(timing)?;
    }
    Ok(timings)
}

fn read_buses<'a>(alloc: Global, words: &[&'a str]) -> Result<Vec<BusWord<'a>>, AllocError>
    ensures { IfOk result (λ buses. AreBusWords buses.items (map (λ word. word.now) words.now)) }
{
    let mut buses = Vec::new(alloc);
    for word in words {
        buses.push(BusWord::read(word))?;
    }
    Ok(buses)
}

pub fn serve_command<'a>(alloc: Global) -> Result<Command<'a>, AllocError>
    ensures { IfOk result (λ c. app_of c ≡ serve_app) }
{
    let sessions_help = "Sessions to serve [default, and the most: 4000, in long runs 4294967295]";
    let pace_help = "Milliseconds after each attempt of a bus without --bitrate, 0 to 60000";
    let write_help = "Most bytes of frames in one write to a client, 256 to 65536";
    let flush_help = "Milliseconds that live output may wait, 0 to 60000 [default: 100]";
    let command = Command::new(alloc, "serve")
        .about("Serve clients on buses")
        .after_help(SERVE_HELP);
    with_bus_options(alloc, command)?
        .arg(listen_option(alloc))?
        .arg(free_option(alloc, SESSIONS, "N", sessions_help))?
        .arg(number_option(alloc, PACE, "MS", "1", pace_help))?
        .arg(number_option(alloc, WRITE, "BYTES", "1024", write_help))?
        .arg(out_option(alloc))?
        .arg(record_option(alloc))?
        .arg(free_option(alloc, FLUSH, "MS", flush_help))?
        .arg(sync_option(alloc))?
        .arg(until_eof_option(alloc))?
        .arg(verbose_option(alloc))?
        .arg(buses_argument(alloc))
}

fn buses_argument<'a>(alloc: Global) -> Arg<'a>
    ensures rule { rule_of result ≡ words_rule (codes "BUS") }
    ensures local { result.global ≡ false }
{
    bus_argument(alloc).num_args(1..)
}

fn listen_option<'a>(alloc: Global) -> Arg<'a>
    ensures rule { rule_of result ≡ default_rule (codes "listen") (codes "127.0.0.1:29536") }
    ensures local { result.global ≡ false }
{
    Arg::new(alloc, LISTEN)
        .long(LISTEN)
        .value_name("ADDR")
        .default_value("127.0.0.1:29536")
        .help("Host and port, or a Unix path that begins with / or .")
}

fn out_option<'a>(alloc: Global) -> Arg<'a>
    ensures rule { rule_of result ≡ option_rule (codes "out") }
    ensures local { result.global ≡ false }
{
    Arg::new(alloc, OUT)
        .long(OUT)
        .value_name("DIR")
        .help("Write the log and the record of each bus into DIR")
}

fn record_option<'a>(alloc: Global) -> Arg<'a>
    ensures rule { rule_of result ≡ default_rule (codes "record") (codes "end") }
    ensures local { result.global ≡ false }
{
    Arg::new(alloc, RECORD)
        .long(RECORD)
        .value_name("WHEN")
        .default_value(END)
        .help("When records are written: at the end, live, or none; live and none write logs live")
}

fn sync_option<'a>(alloc: Global) -> Arg<'a>
    ensures rule { rule_of result ≡ flag_rule (codes "sync") }
    ensures local { result.global ≡ false }
{
    Arg::new(alloc, SYNC)
        .long(SYNC)
        .action(ArgAction::SetTrue)
        .help("Wait each time until live output is on the disk")
}

fn until_eof_option<'a>(alloc: Global) -> Arg<'a>
    ensures rule { rule_of result ≡ flag_rule (codes "until-eof") }
    ensures local { result.global ≡ false }
{
    Arg::new(alloc, UNTIL_EOF)
        .long(UNTIL_EOF)
        .action(ArgAction::SetTrue)
        .help("End the run when standard input ends")
}

fn verbose_option<'a>(alloc: Global) -> Arg<'a>
    ensures rule { rule_of result ≡ flag_rule (codes "verbose") }
    ensures local { result.global ≡ false }
{
    Arg::new(alloc, VERBOSE)
        .long(VERBOSE)
        .action(ArgAction::SetTrue)
        .help("Report each client and each bus off in a line on standard error")
}
