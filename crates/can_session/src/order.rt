ghost use Rattle.std.specs.Prelude.{◌≡◌, ◌≤◌, ◌<◌, ◌-◌, ◌∷◌, option_map, option_and_then, IfSome};
ghost use Rattle.can_session.specs.Orders.{Effect, effect_of, order_of, asked_by_word, fed_by, is_remark, session_number, session_of, parted};
ghost use Rattle.can_frame.specs.Moments.{moment_in};
ghost use Rattle.can_proto.specs.Verbs.{is_word};

use crate::byte_search::place_of;
use can_frame::{Moment, read_decimal, read_moment};
use std::marker::Model;

/// The number of a session, from 1 to 64.
#[derive(Debug, Clone, Copy, PartialEq, Eq)]
pub struct SessionNumber {
    number: u8,
}

impl Model for SessionNumber {
    ghost use Rattle.std.specs.Prelude.{ℕ, ◌≤◌};

    ghost Value = { ℕ };

    ghost view = { λ s. s.number };

    ghost invariant = { λ s. (1 ≤ s.number) × (s.number ≤ 64) };

    ghost inverse = { λ n. record { number = n } };
}

impl SessionNumber {
    /// Returns the session with this number, if the number is from 1 to 64.
    pub fn new(number: u8) -> Option<SessionNumber>
        ensures { result ≡ session_number number }
    {
        if number < 1 || number > 64 {
            return None;
        }
        Some(SessionNumber { number })
    }

    /// Returns the number, from 1 to 64.
    pub fn number(self) -> u8
        ensures number { result ≡ self }
        ensures low { 1 ≤ result }
        ensures high { result ≤ 64 }
    {
        self.number
    }

    /// Returns the index of the session in the list of sessions, starting at 0.
    pub fn place(self) -> usize
        ensures place { result ≡ self - 1 }
        ensures within { result < 64 }
    {
        usize::from(self.number) - 1
    }
}

/// The command in a line of the bench's input.
#[derive(Clone, Copy)]
pub enum Order<'a> {
    /// Do nothing: the line is empty or a comment.
    Nothing,
    /// Set the moment.
    At(Moment),
    /// Start a session.
    Session(SessionNumber),
    /// Feed these bytes to a session.
    Feed(SessionNumber, &'a [u8]),
    /// Deliver the items that a session's socket has received to the session.
    Drain(SessionNumber),
    /// End a session.
    End(SessionNumber),
    /// Attempt to send a frame on the bus.
    Attempt,
    /// Make all attempts that begin before this moment.
    Run(Moment),
    /// Add a fault rule, given as a string, to the bus.
    Fault(&'a [u8]),
    /// Take the interface with this name down.
    Down(&'a [u8]),
    /// Bring the interface with this name up by a restart.
    Up(&'a [u8]),
}

/// Parses a line without its LF. Returns `None` if the line is not valid.
pub fn read_order(line: &[u8]) -> Option<Order<'_>>
    ensures { option_map effect_of result ≡ order_of line.now }
{
    if let Some(rest) = after_feed(line) {
        return read_feed(rest);
    }
    if let Some(rest) = after_at(line) {
        return read_at(rest);
    }
    if let Some(rest) = after_drain(line) {
        return read_drain(rest);
    }
    if is_remark(line) {
        return Some(Order::Nothing);
    }
    if is_word(line, b"attempt") {
        return Some(Order::Attempt);
    }
    let (word, rest) = split_at_first(line, b' ')?;
    read_asked(word, rest)
}

// Parses a line that was split at its first space.
fn read_asked<'a>(word: &[u8], rest: &'a [u8]) -> Option<Order<'a>>
    ensures { option_map effect_of result ≡ asked_by_word (word.now, rest.now) }
{
    if is_word(word, b"at") {
        read_at(rest)
    } else if is_word(word, b"session") {
        Some(Order::Session(read_session(rest)?))
    } else if is_word(word, b"feed") {
        read_feed(rest)
    } else if is_word(word, b"drain") {
        read_drain(rest)
    } else if is_word(word, b"end") {
        Some(Order::End(read_session(rest)?))
    } else if is_word(word, b"run") {
        Some(Order::Run(read_moment(rest)?))
    } else if is_word(word, b"fault") {
        Some(Order::Fault(rest))
    } else if is_word(word, b"down") {
        Some(Order::Down(rest))
    } else if is_word(word, b"up") {
        Some(Order::Up(rest))
    } else {
        None
    }
}

// The next functions match the most frequent words directly, without a search for a space.

// Returns the bytes after `at` and a space.
fn after_at(line: &[u8]) -> Option<&[u8]>
    ensures { IfSome result (λ rest. line.now ≡ 97 ∷ 116 ∷ 32 ∷ rest.now) }
{
    match line {
        [b'a', b't', b' ', rest @ ..] => Some(rest),
        _ => None,
    }
}

// Returns the bytes after `feed` and a space.
fn after_feed(line: &[u8]) -> Option<&[u8]>
    ensures { IfSome result (λ rest. line.now ≡ 102 ∷ 101 ∷ 101 ∷ 100 ∷ 32 ∷ rest.now) }
{
    match line {
        [b'f', b'e', b'e', b'd', b' ', rest @ ..] => Some(rest),
        _ => None,
    }
}

// Returns the bytes after `drain` and a space.
fn after_drain(line: &[u8]) -> Option<&[u8]>
    ensures { IfSome result (λ rest. line.now ≡ 100 ∷ 114 ∷ 97 ∷ 105 ∷ 110 ∷ 32 ∷ rest.now) }
{
    match line {
        [b'd', b'r', b'a', b'i', b'n', b' ', rest @ ..] => Some(rest),
        _ => None,
    }
}

// Parses the bytes after `at` and a space.
fn read_at(rest: &[u8]) -> Option<Order<'_>>
    ensures { option_map effect_of result ≡ option_map Effect.Sets (moment_in rest.now) }
{
    Some(Order::At(read_moment(rest)?))
}

// Parses the bytes after `feed` and a space.
fn read_feed(rest: &[u8]) -> Option<Order<'_>>
    ensures { option_map effect_of result ≡ option_and_then fed_by (parted 32 rest.now) }
{
    let (session, bytes) = split_at_first(rest, b' ')?;
    Some(Order::Feed(read_session(session)?, bytes))
}

// Parses the bytes after `drain` and a space.
fn read_drain(rest: &[u8]) -> Option<Order<'_>>
    ensures { option_map effect_of result ≡ option_map Effect.Drains (session_of rest.now) }
{
    Some(Order::Drain(read_session(rest)?))
}

// Returns whether a line is empty or a comment.
fn is_remark(line: &[u8]) -> bool
    ensures { result ≡ is_remark line.now }
{
    match line {
        [] => true,
        [first, ..] => *first == b'#',
    }
}

// Returns whether the word of a line equals this name.
fn is_word(word: &[u8], name: &[u8]) -> bool
    ensures { result ≡ is_word word.now name.now }
{
    word == name
}

// Returns the bytes before the first `mark` and the bytes after it.
fn split_at_first(text: &[u8], mark: u8) -> Option<(&[u8], &[u8])>
    ensures { option_map (λ parts. (parts.0.now, parts.1.now)) result ≡ parted mark text.now }
{
    let place = place_of(text, mark)?;
    Some((&text[..place], &text[place + 1..]))
}

/// Parses the number of a session, from 1 to 64, without leading zeros.
fn read_session(word: &[u8]) -> Option<SessionNumber>
    ensures { result ≡ session_of word.now }
{
    if let [b'0', ..] = word {
        return None;
    }
    let number = read_decimal(word, 2)?;
    SessionNumber::new(number as u8)
}
