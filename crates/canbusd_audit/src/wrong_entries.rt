ghost use Rattle.can_event.specs.Spelled.{FitsReply};
ghost use Rattle.canbusd_audit.specs.Audited.{FitsLines};

use crate::notes::HEAD;
use can_bus::{Event, Reply};
use can_record_text::line_text;
use can_replay::WrongLine;
use canbusd_io::{Shown, SourceLine};
use std::alloc::{AllocError, Global};

/// Returns a note with the line of a wrong entry and the line that would be legal instead.
pub fn wrong_note(alloc: Global, path: &str, wrong: &WrongLine) -> Result<String, AllocError>
    requires { FitsLines wrong.now }
{
    let event = &wrong.entry.event;
    let text = shown_line(alloc, event, &wrong.entry.reply)?;
    let line = SourceLine::new(path, (wrong.place as u64).saturating_add(HEAD + 1), &text);
    match &wrong.legal {
        Some(reply) => {
            let legal = shown_line(alloc, event, reply)?;
            let legal = Shown::cut(&legal);
            format!(in alloc; "  {line}\n  legal is: {legal}\n")
        }
        None => {
            let limit = wrong.limit;
            format!(in alloc; "  {line}\n  line 2 allows at most {limit} entries\n")
        }
    }
}

// Returns the line of an event with this reply in the text of a record, without its LF.
fn shown_line(alloc: Global, event: &Event, reply: &Reply) -> Result<Vec<u8>, AllocError>
    requires { FitsReply event.now reply.now }
{
    let mut text = line_text(alloc, event, reply)?;
    let _lf = text.pop();
    Ok(text)
}
