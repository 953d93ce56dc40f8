//! Reads when a server writes its records, and checks the options that depend on this.
ghost use Rattle.std.specs.Prelude.{◌≡◌, ◌↔◌, codes, IfErr, IfNone, IfOk, IfSome, IsNone};
ghost use Rattle.canbusd_options.specs.Help.{IsNoMemory, RefusesValue};
ghost use Rattle.canbusd_options.specs.Options.{CanRecord, GoWith, IsRecording, value_of, most_sessions, recording_text, rows_in, server_limit, usual_sessions};

use crate::bus_options::{LIMIT, Subcommand, USUAL_LIMIT, is_on};
use crate::serve_options::{FLUSH, OUT, SYNC};
use clap::{ArgMatches, Error};
use std::alloc::Global;

pub const RECORD: &str = "record";

pub const END: &str = "end";

const LIVE: &str = "live";

const NONE: &str = "none";

/// The default for the largest number of events in a long run.
const LONG_LIMIT: &str = "4294967294";

/// The time at which the records of a server's buses are written.
#[derive(Debug, Clone, Copy, PartialEq, Eq)]
pub enum Recording {
    /// At the end, together with the logs. Until then the records are kept in memory.
    AtEnd,
    /// While the server runs, together with the logs.
    Live,
    /// Never. Logs are written while the server runs.
    Never,
}

impl Recording {
    /// Reads the value of `--record`: `end`, `live` or `none`.
    fn read(text: &str) -> Option<Recording>
        ensures some { IfSome result (λ r. text.now ≡ recording_text r) }
        ensures none { IfNone result (¬ (IsRecording text.now)) }
    {
        if text == END {
            return Some(Recording::AtEnd);
        }
        if text == LIVE {
            return Some(Recording::Live);
        }
        if text == NONE {
            return Some(Recording::Never);
        }
        None
    }

    /// Returns the default of `--limit`, which applies to each bus.
    pub fn limit(self) -> &'static str
        ensures { result.now ≡ server_limit self }
    {
        match self {
            Recording::AtEnd => USUAL_LIMIT,
            Recording::Live | Recording::Never => LONG_LIMIT,
        }
    }

    /// Returns the default number of sessions of a server.
    pub fn usual_sessions(self) -> &'static str
        ensures { result.now ≡ usual_sessions self }
    {
        match self {
            Recording::AtEnd => "4000",
            Recording::Live | Recording::Never => "4294967295",
        }
    }

    /// Returns the largest number of sessions that a server may have.
    pub fn most_sessions(self) -> u32
        ensures { result ≡ most_sessions self }
    {
        match self {
            Recording::AtEnd => 4_000,
            Recording::Live | Recording::Never => u32::MAX,
        }
    }

    /// Returns a message if other options are not allowed with this value, or `None` if they are.
    fn clash(self, serve: &ArgMatches<'_>) -> Option<&'static str>
        ensures { IsNone result ↔ GoWith self (rows_in serve.now) }
    {
        match self {
            Recording::AtEnd => clash_at_end(serve),
            Recording::Live => clash_live(serve),
            Recording::Never => clash_never(serve),
        }
    }
}

/// Returns when records are written. It is an error if another option is not allowed with this value.
#[tactic(auto, using(crate::proofs::Rules::text_in_rows))]
pub fn recording_given(alloc: Global, serve: &ArgMatches<'_>) -> Result<Recording, Error>
    ensures given { IfOk result (λ r.
        value_of (rows_in serve.now) (codes "record") ≡ recording_text r) }
    ensures together { IfOk result (λ r. GoWith r (rows_in serve.now)) }
    ensures taken { IfErr result (λ e. CanRecord (rows_in serve.now) → IsNoMemory e) }
    ensures refused { IfErr result RefusesValue }
{
    let text = serve.get_str(RECORD).unwrap_or("");
    let Some(recording) = Recording::read(text) else {
        let message = format!(in alloc;
            "invalid value '{text}' for '--record': end, live or none"
        )?;
        return Err(Subcommand::Serve.error(alloc, &message)?);
    };
    match recording.clash(serve) {
        None => Ok(recording),
        Some(message) => Err(Subcommand::Serve.error(alloc, message)?),
    }
}

#[tactic(auto, using(crate::proofs::Rules::text_in_rows))]
fn clash_at_end(serve: &ArgMatches<'_>) -> Option<&'static str>
    ensures { IsNone result ↔ GoWith Recording.AtEnd (rows_in serve.now) }
{
    if serve.get_str(FLUSH).is_some() {
        return Some("'--flush' needs '--record live' or '--record none'");
    }
    if is_on(serve, SYNC) {
        return Some("'--sync' needs '--record live' or '--record none'");
    }
    None
}

#[tactic(auto, using(crate::proofs::Rules::text_in_rows))]
fn clash_live(serve: &ArgMatches<'_>) -> Option<&'static str>
    ensures { IsNone result ↔ GoWith Recording.Live (rows_in serve.now) }
{
    if serve.get_str(LIMIT).is_some() {
        return Some("'--limit' cannot be used with '--record live', whose limit is 4294967294");
    }
    if serve.get_str(OUT).is_none() {
        return Some("'--record live' needs '--out DIR'");
    }
    None
}

#[tactic(auto, using(crate::proofs::Rules::text_in_rows))]
fn clash_never(serve: &ArgMatches<'_>) -> Option<&'static str>
    ensures { IsNone result ↔ GoWith Recording.Never (rows_in serve.now) }
{
    if serve.get_str(LIMIT).is_some() {
        return Some("'--limit' cannot be used with '--record none', whose limit is 4294967294");
    }
    None
}
