ghost use Rattle.std.specs.Prelude.{◌≡◌, codes, IfSome};
ghost use Rattle.can_proto.specs.Words.{BeginsWith};
ghost use Rattle.can_proto.specs.Verbs.{is_word, is_other_mode, named, is_allowed_in};

use crate::command::Mode;

/// The command that the first word of a message names.
#[derive(Debug, Clone, Copy, PartialEq, Eq)]
pub enum Verb {
    Echo,
    Interfaces,
    Open,
    Rawmode,
    /// A mode of socketcand that this server does not support.
    OtherMode,
    Send,
    SendRtr,
    SendFd,
    /// Send an FD frame with flags.
    SendFlagged,
    Filter,
    Join,
    Loopback,
    RecvOwn,
    FdFrames,
    ErrMask,
    ErrData,
    Ack,
    Origin,
    Stats,
    Status,
    Load,
    Restart,
    Fault,
    Faults,
    NoFaults,
    Close,
    Down,
}

#[inline(always)]
fn matches(word: &[u8], name: &[u8]) -> bool
    ensures { result ≡ is_word word.now name.now }
{
    word == name
}

/// Returns the verb that a word names.
pub fn verb_of(word: &[u8]) -> Option<Verb>
    ensures { result ≡ named word.now }
{
    if matches(word, b"send") {
        Some(Verb::Send)
    } else if matches(word, b"sendrtr") {
        Some(Verb::SendRtr)
    } else if matches(word, b"sendfd") {
        Some(Verb::SendFd)
    } else if matches(word, b"sendfdx") {
        Some(Verb::SendFlagged)
    } else if matches(word, b"echo") {
        Some(Verb::Echo)
    } else if matches(word, b"interfaces") {
        Some(Verb::Interfaces)
    } else if matches(word, b"open") {
        Some(Verb::Open)
    } else if matches(word, b"rawmode") {
        Some(Verb::Rawmode)
    } else if matches(word, b"filter") {
        Some(Verb::Filter)
    } else if matches(word, b"join") {
        Some(Verb::Join)
    } else if matches(word, b"loopback") {
        Some(Verb::Loopback)
    } else if matches(word, b"recvown") {
        Some(Verb::RecvOwn)
    } else if matches(word, b"fdframes") {
        Some(Verb::FdFrames)
    } else if matches(word, b"errmask") {
        Some(Verb::ErrMask)
    } else if matches(word, b"errdata") {
        Some(Verb::ErrData)
    } else if matches(word, b"ack") {
        Some(Verb::Ack)
    } else if matches(word, b"origin") {
        Some(Verb::Origin)
    } else if matches(word, b"stats") {
        Some(Verb::Stats)
    } else if matches(word, b"status") {
        Some(Verb::Status)
    } else if matches(word, b"load") {
        Some(Verb::Load)
    } else if matches(word, b"restart") {
        Some(Verb::Restart)
    } else if matches(word, b"fault") {
        Some(Verb::Fault)
    } else if matches(word, b"faults") {
        Some(Verb::Faults)
    } else if matches(word, b"nofaults") {
        Some(Verb::NoFaults)
    } else if matches(word, b"close") {
        Some(Verb::Close)
    } else if matches(word, b"down") {
        Some(Verb::Down)
    } else if names_other_mode(word) {
        Some(Verb::OtherMode)
    } else {
        None
    }
}

/// Returns the bytes after ` send `, if the text begins with these six bytes. Most messages do.
pub fn after_send(text: &[u8]) -> Option<&[u8]>
    ensures { IfSome result (λ rest. BeginsWith (codes "send") rest.now text.now) }
{
    match text {
        [b' ', b's', b'e', b'n', b'd', b' ', rest @ ..] => Some(rest),
        _ => None,
    }
}

/// Returns whether a word names a mode of socketcand that this server does not support.
fn names_other_mode(word: &[u8]) -> bool
    ensures { result ≡ is_other_mode word.now }
{
    matches(word, b"bcmmode") || matches(word, b"isotpmode") || matches(word, b"controlmode")
}

/// Returns whether the command is allowed in this mode.
pub fn is_allowed_in(verb: Verb, mode: Mode) -> bool
    ensures { result ≡ is_allowed_in verb mode }
{
    match (verb, mode) {
        (Verb::Echo | Verb::Interfaces, Mode::NoBus | Mode::Opened) => true,
        (Verb::Open, mode) => matches!(mode, Mode::NoBus),
        (Verb::Rawmode | Verb::OtherMode, Mode::Opened) => true,
        (Verb::Fault | Verb::Faults | Verb::NoFaults, Mode::Opened) => true,
        (_, mode) => matches!(mode, Mode::Raw),
    }
}
