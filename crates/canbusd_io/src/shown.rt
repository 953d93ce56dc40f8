ghost use Rattle.std.specs.Prelude.{◌≡◌, ◌&&◌, if◌then◌else◌, nat_le};

use std::fmt;

/// The largest number of bytes that are shown of a line or a name.
const MOST_SHOWN: usize = 72;

/// Bytes in a form that is safe to print to a terminal. A byte that is not printable ASCII is shown as `?`.
#[derive(Clone, Copy)]
pub struct Shown<'a> {
    bytes: &'a [u8],
    is_cut: bool,
}

impl<'a> Shown<'a> {
    /// Shows a whole string.
    pub fn whole(text: &'a str) -> Shown<'a> {
        Shown {
            bytes: text.as_bytes(),
            is_cut: false,
        }
    }

    /// Shows the first 72 bytes, and `..` if there are more.
    pub fn cut(bytes: &'a [u8]) -> Shown<'a> {
        let len = bytes.len().min(MOST_SHOWN);
        Shown {
            bytes: &bytes[..len],
            is_cut: len < bytes.len(),
        }
    }
}

impl fmt::Display for Shown<'_> {
    fn fmt<W: fmt::Write>(&self, f: &mut fmt::Formatter<W>) -> fmt::Result {
        for byte in self.bytes {
            f.write_char(printable(*byte))?;
        }
        if self.is_cut {
            f.write_str("..")?;
        }
        Ok(())
    }
}

// Returns the character for a byte from the space to `~`, and `?` for any other byte.
fn printable(byte: u8) -> char
    ensures { result ≡ (if nat_le 32 byte && nat_le byte 126 then byte else 63) }
{
    if byte.is_ascii_graphic() || byte == b' ' {
        char::from(byte)
    } else {
        '?'
    }
}

/// A line and its position, shown as `FILE:NUMBER: TEXT`.
#[derive(Clone, Copy)]
pub struct SourceLine<'a> {
    file: &'a str,
    number: u64,
    text: &'a [u8],
}

impl<'a> SourceLine<'a> {
    /// Returns line `number` of a file, counted from 1, in the form that is shown in errors.
    pub fn new(file: &'a str, number: u64, text: &'a [u8]) -> SourceLine<'a> {
        SourceLine { file, number, text }
    }
}

impl fmt::Display for SourceLine<'_> {
    fn fmt<W: fmt::Write>(&self, f: &mut fmt::Formatter<W>) -> fmt::Result {
        let file = Shown::whole(self.file);
        let number = self.number;
        let text = Shown::cut(self.text);
        write!(f, "{file}:{number}: {text}")
    }
}
