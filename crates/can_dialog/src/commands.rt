ghost use Rattle.std.specs.Prelude.{◌≡◌, Some};
ghost use Rattle.can_dialog.specs.Calls.{cause_of_port};
ghost use Rattle.can_dialog.specs.Sessions.{Replies};
ghost use Rattle.can_dialog.specs.Turns.{told_when_done as told_of, sending_frame, looking_up, closing_socket, ending_rules, doing, doing_unopened, doing_opened, doing_raw};

use crate::port::{Port, PortRefusal};
use crate::stage::{Dialog, RawSocket, Stage};
use can_event::Refusal;
use can_frame::{Frame, Iface, Moment};
use can_proto::{Answer, Cause, Command};

/// Returns the reply to a refused call.
fn refused(refusal: PortRefusal) -> Option<Answer>
    ensures { result ≡ Some (Answer.Refused (cause_of_port refusal)) }
{
    Some(Answer::Refused(refusal.cause()))
}

/// Returns the reply to a call that has no result of its own: `done` or a refusal.
fn told(outcome: Result<(), PortRefusal>) -> Option<Answer>
    ensures { result ≡ Some (told_of outcome) }
{
    match outcome {
        Ok(()) => Some(Answer::Done),
        Err(refusal) => refused(refusal),
    }
}

/// Removes all fault rules of the bus.
fn end_rules<P: Port>(dialog: Dialog, port: &mut P) -> Option<Answer>
    ensures { Replies P.step (ending_rules dialog) port.old port.new result dialog }
{
    port.end_rules();
    Some(Answer::Done)
}

/// Carries out a command of a client that has opened no interface yet.
fn do_unopened<P: Port>(dialog: &mut Dialog, command: &Command, port: &mut P) -> Option<Answer>
    ensures { Replies P.step (doing_unopened dialog.old command.now)
        port.old port.new result dialog.new }
{
    match command {
        Command::Echo => Some(Answer::Echo),
        Command::Open(name) => match port.attach(name.bytes()) {
            Ok(iface) => {
                dialog.stage = Stage::Opened(iface);
                Some(Answer::Done)
            }
            Err(refusal) => refused(refusal),
        },
        _ => Some(Answer::Refused(Cause::WrongState)),
    }
}

/// Carries out a command of a client that has opened an interface but has no socket.
fn do_opened<P: Port>(
    dialog: &mut Dialog,
    iface: Iface,
    command: &Command,
    port: &mut P,
) -> Option<Answer>
    ensures { Replies P.step (doing_opened dialog.old iface command.now)
        port.old port.new result dialog.new }
{
    match command {
        Command::Echo => Some(Answer::Echo),
        Command::Rawmode => match port.open(iface, dialog.capacity) {
            Ok(socket) => {
                dialog.stage = Stage::Raw(RawSocket {
                    iface,
                    socket,
                    errdata: false,
                    acks: false,
                    origins: false,
                });
                Some(Answer::Done)
            }
            Err(refusal) => refused(refusal),
        },
        Command::Fault(rule) => told(port.inject(rule.bytes())),
        Command::Faults => Some(Answer::Faults(port.rules())),
        Command::NoFaults => end_rules(*dialog, port),
        _ => Some(Answer::Refused(Cause::WrongState)),
    }
}

/// Sends a frame. The reply is the number of the frame if the client asked for such numbers. A refusal is always reported.
pub fn send<P: Port>(dialog: Dialog, raw: RawSocket, frame: Frame, port: &mut P) -> Option<Answer>
    ensures { Replies P.step (sending_frame dialog raw frame) port.old port.new result dialog }
{
    match port.send(raw.socket, frame) {
        Ok(number) if raw.acks => Some(Answer::Sent(number)),
        Ok(_) => None,
        Err(refusal) => refused(refusal),
    }
}

/// Returns the statistics of the socket and of its interface.
fn look_up<P: Port>(dialog: Dialog, raw: RawSocket, port: &mut P) -> Option<Answer>
    ensures { Replies P.step (looking_up dialog raw) port.old port.new result dialog }
{
    let Some(socket) = port.socket_stats(raw.socket) else {
        return refused(PortRefusal::Bus(Refusal::NoSocket));
    };
    match port.iface_stats(raw.iface) {
        Some(iface) => Some(Answer::Stats(socket, iface)),
        None => refused(PortRefusal::Bus(Refusal::NoInterface)),
    }
}

/// Closes the socket and ends the session.
fn close<P: Port>(dialog: &mut Dialog, raw: RawSocket, port: &mut P) -> Option<Answer>
    ensures { Replies P.step (closing_socket dialog.old raw) port.old port.new result dialog.new }
{
    match port.close(raw.socket) {
        Ok(closed) => {
            dialog.stage = Stage::Ended;
            Some(Answer::Closing(closed))
        }
        Err(refusal) => refused(refusal),
    }
}

/// Carries out a command of a client in raw mode.
fn do_raw<P: Port>(
    dialog: &mut Dialog,
    raw: RawSocket,
    command: Command,
    moment: Moment,
    port: &mut P,
) -> Option<Answer>
    ensures { Replies P.step (doing_raw moment dialog.old raw command)
        port.old port.new result dialog.new }
{
    match command {
        Command::Echo => Some(Answer::Echo),
        Command::Open(_) | Command::Interfaces => Some(Answer::Refused(Cause::WrongState)),
        Command::Rawmode => Some(Answer::Done),
        Command::Send(frame) => send(*dialog, raw, frame, port),
        Command::SetFilters(filters) => told(port.set_filters(raw.socket, filters)),
        Command::SetOption(option) => told(port.set_option(raw.socket, option)),
        Command::ErrData(on) => {
            dialog.stage = Stage::Raw(RawSocket { errdata: on, ..raw });
            Some(Answer::Done)
        }
        Command::Ack(on) => {
            dialog.stage = Stage::Raw(RawSocket { acks: on, ..raw });
            Some(Answer::Done)
        }
        Command::Origin(on) => {
            dialog.stage = Stage::Raw(RawSocket { origins: on, ..raw });
            Some(Answer::Done)
        }
        Command::Stats => look_up(*dialog, raw, port),
        Command::Status => Some(Answer::Status(port.status(raw.iface))),
        Command::Load => Some(Answer::Load(port.load(moment))),
        Command::Restart => told(port.restart(raw.iface, moment)),
        Command::Fault(rule) => told(port.inject(rule.bytes())),
        Command::Faults => Some(Answer::Faults(port.rules())),
        Command::NoFaults => end_rules(*dialog, port),
        Command::Close => close(dialog, raw, port),
        Command::Down => told(port.down(raw.iface, moment)),
    }
}

/// Carries out a command other than `interfaces`, and returns the reply to the client if there is one.
pub fn carry_out<P: Port>(
    dialog: &mut Dialog,
    command: Command,
    moment: Moment,
    port: &mut P,
) -> Option<Answer>
    ensures { Replies P.step (doing moment dialog.old dialog.old.stage command)
        port.old port.new result dialog.new }
{
    let stage = dialog.stage;
    match &stage {
        Stage::NoBus => do_unopened(dialog, &command, port),
        Stage::Opened(iface) => do_opened(dialog, *iface, &command, port),
        Stage::Raw(raw) => do_raw(dialog, *raw, command, moment, port),
        Stage::Ended => None,
    }
}
