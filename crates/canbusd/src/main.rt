//! canbusd: simulated CAN buses in user space. `canbusd bench BUS` reads lines that open sessions, send commands to them and put
//! frames on one bus, and writes the replies of the sessions. `canbusd serve BUS..` serves clients over sockets. `canbusd audit
//! FILE..` checks the record of a run. `canbusd bits FRAME` writes the bits of a frame. The module `program` carries out a command
//! line and returns its exit status. The crate canbusd_options parses the command line. The jobs are in canbusd_bench,
//! canbusd_serve and canbusd_audit, except the job of `bits`, which is in this crate. Three properties are proved here. No command
//! line, file or input makes a function fail, and only `serve` waits for other programs. Status 0 of `run_words` means that the
//! requested job was done, or help was requested, and its output was written. Status 2 means that the command line does not request
//! a job.
#![tactic(auto)]

mod bits_job;
mod program;

use canbusd_io::{ProgramError, Report};
use program::{fail, run_words};
use std::io::{BufWriter, ErrorKind};
use std::net::{TcpListener, TcpStream};
use std::process::ExitCode;
use std::rt::Env;
use std::{env, io};

fn main(rt: HostRuntime) -> ExitCode {
    // The checker has to see the system's socket types before a server uses them.
    let _types: Option<(TcpListener, TcpStream)> = None;
    let alloc = rt.alloc();
    let errors = &mut rt.stderr();
    let Ok(mut output) = BufWriter::new(alloc, rt.stdout()) else {
        return ExitCode::from(fail(&Report::new(alloc, ProgramError::NoMemory), errors));
    };
    let status = match read_words(&rt) {
        Ok(words) => run_words(&rt, alloc, &words, rt.stdin(), &mut output, errors),
        Err(error) if error.kind() == ErrorKind::OutOfMemory => {
            fail(&Report::new(alloc, ProgramError::NoMemory), errors)
        }
        Err(_) => {
            let _ = eprintln!(rt; "error: the command line is no UTF-8 text");
            2
        }
    };
    ExitCode::from(status)
}

fn read_words(rt: &(impl Env + AllocGlobal)) -> io::Result<Vec<String>> {
    Ok(env::args(rt)?.collect(rt.alloc())?)
}
