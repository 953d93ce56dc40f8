//! Reads the command line and returns the job that it asks for.
ghost use Rattle.std.specs.Prelude.{◌≡◌, map, string_bytes, IfErr, IfOk};
ghost use Rattle.clap.specs.Words.{app_of, fault_of};
ghost use Rattle.canbusd_options.specs.Help.{AskHelp, IsOfKinds, IsNoMemory, ShowsHelp};
ghost use Rattle.canbusd_options.specs.Program.{AskJob, IsAsked, program};

use crate::audit_options::{AuditOptions, audit_command, audit_options};
use crate::bench_options::{BenchOptions, bench_command, bench_options};
use crate::bits_options::{BitsOptions, bits_command, bits_options};
use crate::bus_options::Subcommand;
use crate::help::PROGRAM_HELP;
use crate::serve_options::{ServeOptions, serve_command, serve_options};
use clap::{Command, Error};
use std::alloc::{AllocError, Global};

/// The job that a command line asks for.
#[derive(Debug, Drop)]
pub enum Job<'a> {
    /// Carry out the lines of the input.
    Bench(BenchOptions<'a>),
    /// Serve clients.
    Serve(ServeOptions<'a>),
    /// Audit a record.
    Audit(AuditOptions<'a>),
    /// Write the bits of a frame.
    Bits(BitsOptions),
}

/// Returns the job that the words of a command line ask for. The first word is the program's name. An error is a fault of the
/// command line, a request for help or the version, or a lack of memory.
pub fn read_options<'a>(alloc: Global, words: &'a [String]) -> Result<Job<'a>, Error>
    ensures asked { IfOk result (λ job. IsAsked (map string_bytes words.now) job) }
    ensures taken { IfErr result (λ e. AskJob (map string_bytes words.now) → IsNoMemory e) }
    ensures refused { IfErr result (IsOfKinds (fault_of program (map string_bytes words.now))) }
    ensures help { IfErr result (λ e. ShowsHelp e → AskHelp (map string_bytes words.now)) }
{
    let matches = program_command(alloc)?.try_get_matches_from(words)?;
    if let Some(bench) = matches.subcommand_matches("bench") {
        return Ok(Job::Bench(bench_options(alloc, bench)?));
    }
    if let Some(serve) = matches.subcommand_matches("serve") {
        return Ok(Job::Serve(serve_options(alloc, serve)?));
    }
    if let Some(audit) = matches.subcommand_matches("audit") {
        return Ok(Job::Audit(audit_options(alloc, audit)?));
    }
    match matches.subcommand_matches("bits") {
        Some(bits) => Ok(Job::Bits(bits_options(alloc, bits)?)),
        None => Err(Subcommand::Bench.error(alloc, "no command was given")?),
    }
}

fn program_command<'a>(alloc: Global) -> Result<Command<'a>, AllocError>
    ensures { IfOk result (λ c. app_of c ≡ program) }
{
    Command::new(alloc, "canbusd")
        .version("0.3.0")
        .about("Simulated CAN buses")
        .after_help(PROGRAM_HELP)
        .subcommand_required(true)
        .subcommand(bench_command(alloc)?)?
        .subcommand(serve_command(alloc)?)?
        .subcommand(audit_command(alloc)?)?
        .subcommand(bits_command(alloc)?)
}
