ghost use Rattle.std.specs.Prelude.{◌≡◌};
ghost use Rattle.std.specs.Result.{result_map_both};
ghost use Rattle.can_proto.specs.Words.{words_of};
ghost use Rattle.can_proto.specs.Commands.{GivesAsRead, GivesBut, keeps_on_heap, only, mask_of, flag_of, switch_of, open_of, fault_of, alone, arguments_of};

use crate::client_words::{WantedName, WantedRule};
use crate::command::Command;
use crate::fault::ProtoFault;
use crate::filtering::read_set;
use crate::sending::{read_remote, read_send, read_send_fd, read_send_flagged};
use crate::verb::Verb;
use crate::words::next_word;
use can_event::Opt;
use can_frame::{FdFlags, read_hexadecimal};
use std::alloc::Global;

/// Returns the argument of a command that takes exactly one, or a fault if the number of words is not one.
fn read_word(rest: &[u8]) -> Result<&[u8], ProtoFault>
    ensures { GivesAsRead (result_map_both (λ word. word.now) (λ e. e) result)
        (only (words_of rest.now)) }
{
    let Some((word, rest)) = next_word(rest) else {
        return Err(ProtoFault::BadCount);
    };
    if next_word(rest).is_some() {
        return Err(ProtoFault::BadCount);
    }
    Ok(word)
}

/// Reads the arguments of `errmask HEX`.
#[tactic(auto, unfolding(crate::specs::Commands::mask_of))]
fn read_mask(rest: &[u8]) -> Result<Command, ProtoFault>
    ensures { GivesAsRead result (mask_of (words_of rest.now)) }
{
    match read_hexadecimal(read_word(rest)?, 8) {
        Some(mask) => Ok(Command::SetOption(Opt::ErrMask(mask))),
        None => Err(ProtoFault::BadNumber),
    }
}

/// Reads a flag, which is `0` or `1`.
fn read_flag(word: &[u8]) -> Option<bool>
    ensures { result ≡ flag_of word.now }
{
    match word {
        [b'0'] => Some(false),
        [b'1'] => Some(true),
        _ => None,
    }
}

/// Reads the arguments of a command that takes a single flag, as in `join F`.
#[tactic(auto, unfolding(crate::specs::Commands::switch_of))]
fn read_switch(rest: &[u8]) -> Result<bool, ProtoFault>
    ensures { GivesAsRead result (switch_of (words_of rest.now)) }
{
    match read_flag(read_word(rest)?) {
        Some(on) => Ok(on),
        None => Err(ProtoFault::BadNumber),
    }
}

/// Reads the argument of `open NAME`.
#[inline(never)]
#[tactic(auto, unfolding(crate::specs::Commands::open_of))]
fn read_open(alloc: Global, rest: &[u8]) -> Result<Command, ProtoFault>
    ensures { GivesBut keeps_on_heap result (open_of (words_of rest.now)) }
{
    match WantedName::copied(alloc, read_word(rest)?) {
        Ok(name) => Ok(Command::Open(name)),
        Err(_) => Err(ProtoFault::NoMemory),
    }
}

/// Reads the arguments of `fault RULE`.
#[inline(never)]
#[tactic(auto, unfolding(crate::specs::Commands::fault_of))]
fn read_fault(alloc: Global, rest: &[u8]) -> Result<Command, ProtoFault>
    ensures { GivesBut keeps_on_heap result (fault_of (words_of rest.now)) }
{
    let Some((word, rest)) = next_word(rest) else {
        return Err(ProtoFault::BadCount);
    };
    match WantedRule::joined(alloc, word, rest) {
        Ok(rule) => Ok(Command::Fault(rule)),
        Err(_) => Err(ProtoFault::NoMemory),
    }
}

/// Returns a command that takes no arguments, or a fault if there are any.
#[inline(always)]
fn read_alone(command: Command, rest: &[u8]) -> Result<Command, ProtoFault>
    ensures { GivesAsRead result (alone command (words_of rest.now)) }
{
    match next_word(rest) {
        None => Ok(command),
        Some(_) => Err(ProtoFault::BadCount),
    }
}

/// Returns the command that a verb and the words after it spell.
#[tactic(auto, unfolding(crate::specs::Commands::arguments_of))]
pub fn read_arguments(alloc: Global, verb: Verb, rest: &[u8]) -> Result<Command, ProtoFault>
    ensures { GivesBut keeps_on_heap result (arguments_of verb (words_of rest.now)) }
{
    match verb {
        Verb::Echo => read_alone(Command::Echo, rest),
        Verb::Interfaces => read_alone(Command::Interfaces, rest),
        Verb::Open => read_open(alloc, rest),
        Verb::Rawmode => read_alone(Command::Rawmode, rest),
        Verb::OtherMode => Err(ProtoFault::ModeNotSupported),
        Verb::Send => read_send(rest),
        Verb::SendRtr => read_remote(rest),
        Verb::SendFd => read_send_fd(FdFlags::none(), rest),
        Verb::SendFlagged => read_send_flagged(rest),
        Verb::Filter => read_set(alloc, rest),
        Verb::Join => Ok(Command::SetOption(Opt::Join(read_switch(rest)?))),
        Verb::Loopback => Ok(Command::SetOption(Opt::Loopback(read_switch(rest)?))),
        Verb::RecvOwn => Ok(Command::SetOption(Opt::RecvOwn(read_switch(rest)?))),
        Verb::ErrMask => read_mask(rest),
        Verb::FdFrames => Ok(Command::SetOption(Opt::FdFrames(read_switch(rest)?))),
        Verb::ErrData => Ok(Command::ErrData(read_switch(rest)?)),
        Verb::Ack => Ok(Command::Ack(read_switch(rest)?)),
        Verb::Origin => Ok(Command::Origin(read_switch(rest)?)),
        Verb::Stats => read_alone(Command::Stats, rest),
        Verb::Status => read_alone(Command::Status, rest),
        Verb::Load => read_alone(Command::Load, rest),
        Verb::Restart => read_alone(Command::Restart, rest),
        Verb::Fault => read_fault(alloc, rest),
        Verb::Faults => read_alone(Command::Faults, rest),
        Verb::NoFaults => read_alone(Command::NoFaults, rest),
        Verb::Close => read_alone(Command::Close, rest),
        Verb::Down => read_alone(Command::Down, rest),
    }
}
