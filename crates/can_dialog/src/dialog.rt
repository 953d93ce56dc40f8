ghost use Rattle.std.specs.Prelude.{◌≡◌, ◌+◌, ◌*◌, ◌≤◌, ◌++◌, List, ℕ, length, vec_capacity};
ghost use Rattle.can_dialog.specs.Sessions.{TakesTurn, CarriesOut, Finishes};

use crate::commands::carry_out;
use crate::output::{say, say_names};
use crate::port::Port;
use crate::stage::{Dialog, Stage};
use can_frame::Moment;
use can_proto::{Answer, Cause, Command, Incoming};
use std::alloc::Global;

/// Processes one item of the client's stream. It appends the reply if there is one, and leaves enough capacity for `left` further
/// replies.
pub fn take_turn<P: Port>(
    dialog: &mut Dialog,
    alloc: Global,
    item: &Incoming,
    moment: Moment,
    port: &mut P,
    said: &mut Vec<u8>,
    left: usize,
)
    requires { length said.old.items + (left + 1) * 256 ≤ vec_capacity said.old }
    ensures turn { (text : List ℕ)
        × TakesTurn P.step moment dialog.old item.now port.old port.new text dialog.new
        × (said.new.items ≡ said.old.items ++ text) }
    ensures room { length said.new.items + left * 256 ≤ vec_capacity said.new }
{
    if let Stage::Ended = dialog.stage {
        return;
    }
    match item {
        Incoming::TooLong => say(said, Answer::Refused(Cause::MessageTooLong)),
        Incoming::Message(message) => {
            match Command::read(alloc, dialog.stage.mode(), message) {
                Ok(command) => obey(dialog, alloc, command, moment, port, said, left),
                Err(fault) => say(said, Answer::Refused(Cause::from(fault))),
            }
        }
    }
}

/// Carries out a command. It appends the reply if there is one, and leaves enough capacity for `left` further replies.
fn obey<P: Port>(
    dialog: &mut Dialog,
    alloc: Global,
    command: Command,
    moment: Moment,
    port: &mut P,
    said: &mut Vec<u8>,
    left: usize,
)
    requires { length said.old.items + (left + 1) * 256 ≤ vec_capacity said.old }
    ensures done { (text : List ℕ)
        × CarriesOut P.step moment dialog.old command port.old port.new text dialog.new
        × (said.new.items ≡ said.old.items ++ text) }
    ensures room { length said.new.items + left * 256 ≤ vec_capacity said.new }
{
    if let Command::Interfaces = command {
        say_names(said, alloc, port, left);
        return;
    }
    if let Some(answer) = carry_out(dialog, command, moment, port) {
        say(said, answer);
    }
}

/// Ends a session. It closes the raw socket if there is one, and ignores the port's reply.
pub fn finish<P: Port>(dialog: &mut Dialog, port: &mut P)
    ensures { Finishes P.step dialog.old port.old port.new dialog.new }
{
    if let Stage::Raw(raw) = dialog.stage {
        let _ = port.close(raw.socket);
    }
    dialog.stage = Stage::Ended;
}
