//! Checks the first bytes of a connection. A web page can make its browser send requests to any port of the machine. No such
//! request begins like a client's message.
ghost use Rattle.std.specs.Prelude.{◌≡◌};
ghost use Rattle.can_proto.specs.Words.{is_blank};
ghost use Rattle.can_server.specs.Openings.{is_undecided as is_open_at, after_byte, after_bytes};

/// The result of examining the first bytes of a connection.
#[derive(Debug, Clone, Copy, PartialEq, Eq)]
pub enum Opening {
    /// Only blanks have arrived so far.
    Blank,
    /// Bytes other than blanks have arrived, but no blank after them.
    Word,
    /// The first message has begun, so the connection comes from a client.
    Client,
    /// No client begins like this. Before the first message there was a control byte that is not a blank, or there was a blank
    /// after other bytes.
    Stranger,
}

/// Returns whether the byte is a blank, which may separate the words of a message.
fn is_space(byte: u8) -> bool
    ensures { result ≡ is_blank byte }
{
    byte == b' ' || byte == b'\t' || byte == b'\r' || byte == b'\n'
}

impl Opening {
    /// Returns whether more bytes are needed for a decision.
    fn is_open(self) -> bool
        ensures { result ≡ is_open_at self }
    {
        matches!(self, Opening::Blank | Opening::Word)
    }

    /// Returns the state after one more byte.
    fn after_byte(self, byte: u8) -> Opening
        ensures { result ≡ after_byte self byte }
    {
        if !self.is_open() {
            self
        } else if byte == b'<' {
            Opening::Client
        } else if is_space(byte) {
            if self == Opening::Word {
                Opening::Stranger
            } else {
                Opening::Blank
            }
        } else if byte.is_ascii_control() {
            Opening::Stranger
        } else {
            Opening::Word
        }
    }

    /// Returns the state after these bytes.
    pub fn after(self, bytes: &[u8]) -> Opening
        ensures { result ≡ after_bytes self bytes.now }
    {
        if !self.is_open() {
            return self;
        }
        let mut opening = self;
        for i in 0..bytes.len() {
            opening = opening.after_byte(bytes[i]);
        }
        opening
    }
}
