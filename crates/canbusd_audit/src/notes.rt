//! Notes on the lines of a text that is not the text of a record.
ghost use Rattle.std.specs.Prelude.{◌≡◌};

use can_record_text::ReadFault;
use canbusd_io::{Report, SourceLine, WITH_CR};
use std::alloc::{AllocError, Global};

/// The number of lines in a record's text before the lines of its entries.
pub const HEAD: u64 = 2;

/// Returns a note with a wrong line of a record's text and the form that the line should have.
pub fn record_note(
    alloc: Global,
    path: &str,
    line: &[u8],
    fault: ReadFault,
) -> Result<String, AllocError> {
    let (number, form) = match fault {
        ReadFault::BadVersion => (
            1,
            "the first line of a record is canbus record 1 or 2, or, with an FD frame or the option fd, canbus record 3, or, of a long run, canbus record 4, or, with a flag of an FD frame, canbus record 5, or, with an interface that goes down, canbus record 6",
        ),
        ReadFault::BadLine(2) => (
            2,
            "the second line is bus IFACES ACK REPORTING TXCAPACITY LIMIT, followed by RESTART in versions 2 to 6",
        ),
        ReadFault::BadLine(number) => (number, entry_form(line)),
        ReadFault::NoMemory => return Ok(String::new(alloc)),
    };
    let form = if line.ends_with(b"\r\n") {
        WITH_CR
    } else {
        form
    };
    let line = SourceLine::new(path, number, line.strip_suffix(b"\n").unwrap_or(line));
    format!(in alloc; "  {line}\n  {form}\n")
}

// Returns the form of a line after the second line, or what is wrong if the text ended there: the line is missing or has no LF.
fn entry_form(line: &[u8]) -> &'static str {
    if line.is_empty() {
        "the text ends here, before its line end COUNT"
    } else if line.ends_with(b"\n") {
        "a line is EVENT = REPLY, and the last is end COUNT; each ends with LF"
    } else {
        "the text ends here, in a line without LF"
    }
}

/// Adds a note to the report for a text that ends before its end line. The note says that `--cut` audits the entries. It is added
/// only if the text has the two lines before its entries.
pub fn with_cut_note<'a>(alloc: Global, failure: Report<'a>, fault: ReadFault) -> Report<'a>
    ensures { result.error ≡ failure.entry.error }
{
    match fault {
        ReadFault::BadLine(number) if number > HEAD => match cut_note(alloc, number - HEAD - 1) {
            Ok(note) => failure.and(&note),
            Err(_) => failure,
        },
        _ => failure,
    }
}

// Returns the note that `--cut` audits the entries of the text. It says how many entries there are.
fn cut_note(alloc: Global, entries: u64) -> Result<String, AllocError> {
    format!(in alloc; "  with --cut the {entries} entries before it are audited\n")
}
