ghost use Rattle.std.specs.Prelude.{◌≡◌, ◌≤◌, ◌+◌, ◌++◌, ◌∷◌, [], OnOk, length};
ghost use Rattle.can_record_text.specs.inner.Words.{spaced};
ghost use Rattle.can_record_text.specs.Spelling.{answered_line, filter_words};

use crate::entry_lines::{push_event, push_reply};
use crate::line_words::{LineText, push_mask};
use can_event::{Event, Reply};
use can_filter::Filter;
use can_frame::Text;
use std::alloc::AllocError;

/// Appends the line of an event with this reply, including the filters if the event sets any.
#[inline(never)]
pub(crate) fn put_filter_line(
    out: &mut Vec<u8>,
    event: &Event,
    reply: &Reply,
) -> Result<(), AllocError>
    ensures { OnOk result (out.new.items ≡ out.old.items ++ answered_line event.now reply.now []) }
{
    let mut front = Text::new();
    let filters = push_event(&mut front, event);
    out.extend_from_slice(front.as_bytes())?;
    put_filters(out, filters)?;
    let mut end = Text::new();
    push_reply(&mut end, reply);
    out.extend_from_slice(end.as_bytes())?;
    Ok(())
}

/// Appends the words of these filters.
fn put_filters(out: &mut Vec<u8>, filters: &[Filter]) -> Result<(), AllocError>
    ensures { OnOk result (out.new.items ≡ out.old.items ++ spaced (filter_words filters.now)) }
{
    for filter in filters {
        put_filter(out, *filter)?;
    }
    Ok(())
}

/// Appends the words of a filter.
fn put_filter(out: &mut Vec<u8>, filter: Filter) -> Result<(), AllocError>
    ensures { OnOk result (out.new.items ≡ out.old.items ++ spaced (filter_words (filter ∷ []))) }
{
    let mut words = Text::new();
    push_filter(&mut words, filter);
    out.extend_from_slice(words.as_bytes())
}

/// Appends the words of a filter to a line in a fixed buffer.
fn push_filter(line: &mut LineText, filter: Filter)
    requires { length line.old + 18 ≤ 392 }
    ensures { line.new ≡ line.old ++ spaced (filter_words (filter ∷ [])) }
{
    push_mask(line, filter.id());
    push_mask(line, filter.mask());
}
