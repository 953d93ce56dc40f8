//! Records which sessions had input outside messages, so that a run can report them.
ghost use Rattle.std.specs.Prelude.{◌≡◌, true, false};
ghost use Rattle.can_proto.specs.Messages.{has_mark};
ghost use Rattle.can_session.specs.IgnoredInput.{begun_after, is_set, has_outside, none_ignored, ignored_then};

use crate::order::SessionNumber;

/// Which sessions of a run were fed bytes outside messages, and which were fed a message that has not ended. Spaces, tabs, CR and
/// LF outside messages do not count.
#[derive(Debug, Clone, Copy, PartialEq, Eq)]
pub struct IgnoredInput {
    // For each session, whether its last message has begun but not ended.
    begun: [bool; 64],
    outside: [bool; 64],
}

impl IgnoredInput {
    /// Returns the state in which no session has been fed anything.
    pub fn none() -> IgnoredInput
        ensures { result ≡ none_ignored }
    {
        IgnoredInput {
            begun: [false; 64],
            outside: [false; 64],
        }
    }

    /// Returns whether the session's last message has begun but not ended.
    pub fn has_begun(&self, session: SessionNumber) -> bool
        ensures { result ≡ is_set self.now.begun session }
    {
        self.begun[session.place()]
    }

    /// Returns whether the session was fed bytes outside messages, or a second `<` inside an open message.
    pub fn has_outside(&self, session: SessionNumber) -> bool
        ensures { result ≡ is_set self.now.outside session }
    {
        self.outside[session.place()]
    }

    /// Records the bytes that are fed to a session.
    pub fn hear(&mut self, session: SessionNumber, bytes: &[u8])
        ensures { self.new ≡ ignored_then self.old session bytes.now }
    {
        let place = session.place();
        let was_begun = self.begun[place];
        if !self.outside[place] {
            self.outside[place] = are_outside(bytes, was_begun);
        }
        self.begun[place] = is_begun_after(bytes, was_begun);
    }
}

// Returns whether a message is open after these bytes. The last `<` or `>` decides.
fn is_begun_after(bytes: &[u8], was_begun: bool) -> bool
    ensures { result ≡ begun_after was_begun bytes.now }
{
    let mut rest = bytes;
    while let [front @ .., last] = rest {
        match *last {
            b'<' => return true,
            b'>' => return false,
            _ => rest = front,
        }
    }
    was_begun
}

// Returns whether any of the bytes are outside messages, or a second `<` is inside an open message.
fn are_outside(bytes: &[u8], was_begun: bool) -> bool
    ensures { result ≡ has_outside was_begun bytes.now }
{
    if !was_begun && is_message(bytes) {
        return false;
    }
    let mut is_begun = was_begun;
    for byte in bytes {
        match *byte {
            b'<' if is_begun => return true,
            b'<' => is_begun = true,
            b'>' if is_begun => is_begun = false,
            b' ' | b'\t' | b'\r' | b'\n' => {}
            _ if is_begun => {}
            _ => return true,
        }
    }
    false
}

// Returns whether the bytes are exactly one message, which is the most frequent case.
fn is_message(bytes: &[u8]) -> bool
    ensures { result ≡ true → has_outside false bytes.now ≡ false }
{
    match bytes {
        [b'<', inside @ .., b'>'] => !has_marks(inside),
        _ => false,
    }
}

// Returns whether the bytes contain a `<` or `>`. The loop never ends early, so the compiler can compare many bytes at once.
fn has_marks(bytes: &[u8]) -> bool
    ensures { result ≡ has_mark bytes.now }
{
    let mut found = false;
    for byte in bytes {
        found = found | ((*byte == b'<') | (*byte == b'>'));
    }
    found
}
