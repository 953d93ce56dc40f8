ghost use Rattle.std.specs.Prelude.{IfSome, OnOk, ◌++◌, ◌∷◌, [], ◌+◌, ◌≡◌, length};
ghost use Rattle.can_record_text.specs.inner.Reading.{Finds, GivesFilters, with_rest, option_at, verdict_at, filter_at, filters_at, set_filters_at, setting_at, plain_at, event_at, attempted_in, sent_in, SeemsToBe};
ghost use Rattle.can_event.specs.declared.event.Event.TheVariants as event;

use crate::fault::Unread;
use crate::fields::{
    count_field, flag_field, frame_field, iface_field, mask_field, moment_field, set_from,
    short_field, socket_field,
};
use crate::words::{begins, next_word, same_word};
use can_event::{Event, Opt, SocketId};
use can_fault::{GlobalKind, LocalKind, Verdict};
use can_filter::{Filter, FilterError, FilterSet};
use can_frame::{Frame, IfaceSet, Moment};
use std::alloc::{AllocError, Global};

/// Reads the event that a line seems to spell, and returns it with the rest of the text. The caller has to spell the event
/// again and compare the spelling with the line.
#[tactic(auto, unfolding(crate::specs::inner::Reading::event_at))]
pub fn guess_event(alloc: Global, text: &[u8]) -> Result<(Event, &[u8]), Unread>
    ensures { Finds result (event_at text.now) }
{
    let (word, rest) = next_word(text);
    if same_word(word, b"filters") {
        return guess_filters(alloc, rest);
    }
    guess_plain(word, rest).ok_or(Unread::Bad)
}

/// Returns the socket if the text seems to begin with the line of a receive call. The caller has to spell the line again
/// and compare it with the text.
pub fn receive_front(text: &[u8]) -> Option<SocketId>
    ensures { IfSome result (λ id. SeemsToBe text.now (event.Receive id)) }
{
    let rest = text.strip_prefix(b"receive ")?;
    let (id, _) = socket_field(rest)?;
    Some(id)
}

/// Returns the moment and the verdict if the text seems to begin with the line of an attempt. The caller has to spell the
/// line again and compare it with the text.
pub fn attempt_front(text: &[u8]) -> Option<(Moment, Verdict)>
    ensures { IfSome result (λ x. SeemsToBe text.now (event.Attempt x.0 x.1)) }
{
    attempt_fields(text.strip_prefix(b"attempt ")?)
}

/// Returns the socket and the frame if the text seems to begin with the line of a send call. The caller has to spell the
/// line again and compare it with the text.
pub fn send_front(text: &[u8]) -> Option<(SocketId, Frame)>
    ensures { IfSome result (λ x. SeemsToBe text.now (event.Send x.0 x.1)) }
{
    send_fields(text.strip_prefix(b"send ")?)
}

/// Reads the moment and the verdict of an attempt, after the first word of the line.
#[tactic(auto, unfolding(crate::specs::inner::Reading::attempted_in))]
fn attempt_fields(text: &[u8]) -> Option<(Moment, Verdict)>
    ensures { result ≡ attempted_in text.now }
{
    let Some((moment, rest)) = moment_field(text) else {
        return None;
    };
    let (verdict, _) = verdict_field(rest)?;
    Some((moment, verdict))
}

/// Reads the socket and the frame of a send call, after the first word of the line.
#[tactic(auto, unfolding(crate::specs::inner::Reading::sent_in))]
fn send_fields(text: &[u8]) -> Option<(SocketId, Frame)>
    ensures { result ≡ sent_in text.now }
{
    let (id, rest) = socket_field(text)?;
    let Some((frame, _)) = frame_field(rest) else {
        return None;
    };
    Some((id, frame))
}

/// Reads an event other than `SetFilters`. `word` is the first word of its line, and `text` follows that word.
#[tactic(auto, unfolding(crate::specs::inner::Reading::plain_at))]
fn guess_plain<'a>(word: &[u8], text: &'a [u8]) -> Option<(Event, &'a [u8])>
    ensures { with_rest result ≡ plain_at word.now text.now }
{
    if same_word(word, b"attempt") {
        let Some((moment, rest)) = moment_field(text) else {
            return None;
        };
        let (verdict, rest) = verdict_field(rest)?;
        return Some((Event::Attempt(moment, verdict), rest));
    }
    if same_word(word, b"receive") {
        let (id, rest) = socket_field(text)?;
        return Some((Event::Receive(id), rest));
    }
    if same_word(word, b"send") {
        let (id, rest) = socket_field(text)?;
        let Some((frame, rest)) = frame_field(rest) else {
            return None;
        };
        return Some((Event::Send(id, frame), rest));
    }
    guess_setting(word, text)
}

/// Reads an event that opens, closes or configures a socket, or that restarts an interface or takes it down.
#[tactic(auto, unfolding(crate::specs::inner::Reading::setting_at))]
fn guess_setting<'a>(word: &[u8], text: &'a [u8]) -> Option<(Event, &'a [u8])>
    ensures { with_rest result ≡ setting_at word.now text.now }
{
    if same_word(word, b"open") {
        let Some((iface, rest)) = iface_field(text) else {
            return None;
        };
        let (capacity, rest) = short_field(rest)?;
        return Some((Event::Open(iface, capacity), rest));
    }
    if same_word(word, b"close") {
        let (id, rest) = socket_field(text)?;
        return Some((Event::Close(id), rest));
    }
    if same_word(word, b"option") {
        let (id, rest) = socket_field(text)?;
        let (option, rest) = option_field(rest)?;
        return Some((Event::SetOption(id, option), rest));
    }
    if same_word(word, b"restart") {
        let Some((iface, rest)) = iface_field(text) else {
            return None;
        };
        let Some((moment, rest)) = moment_field(rest) else {
            return None;
        };
        return Some((Event::Restart(iface, moment), rest));
    }
    if same_word(word, b"down") {
        let Some((iface, rest)) = iface_field(text) else {
            return None;
        };
        let Some((moment, rest)) = moment_field(rest) else {
            return None;
        };
        return Some((Event::Down(iface, moment), rest));
    }
    None
}

/// Reads a `SetFilters` event, after the first word of its line.
#[tactic(auto, unfolding(crate::specs::inner::Reading::set_filters_at))]
fn guess_filters(alloc: Global, text: &[u8]) -> Result<(Event, &[u8]), Unread>
    ensures { Finds result (set_filters_at text.now) }
{
    let Some((id, rest)) = socket_field(text) else {
        return Err(Unread::Bad);
    };
    let Some((count, rest)) = count_field(rest) else {
        return Err(Unread::Bad);
    };
    let mut filters = Vec::new(alloc);
    let rest = match filter_fields(&mut filters, count, rest) {
        Ok(rest) => rest,
        Err(why) => return Err(why),
    };
    match FilterSet::listed(alloc, &filters) {
        Ok(set) => Ok((Event::SetFilters(id, set), rest)),
        Err(FilterError::TooManyFilters) => Err(Unread::Bad),
        Err(FilterError::NoMemory) => Err(Unread::NoMemory),
    }
}

/// Reads this many filters into `filters`, and returns the rest of the text.
fn filter_fields<'a>(
    filters: &mut Vec<Filter>,
    count: usize,
    text: &'a [u8],
) -> Result<&'a [u8], Unread>
    ensures read { GivesFilters result filters.new.items
        (filters_at filters.old.items count text.now) }
    ensures count { OnOk result (length filters.new.items ≡ length filters.old.items + count) }
{
    let mut rest = text;
    let mut left = count;
    while left > 0 {
        match filter_field(filters, rest) {
            Ok(more) => rest = more,
            Err(why) => return Err(why),
        }
        left -= 1;
    }
    Ok(rest)
}

/// Reads one filter, and returns it with the rest of the text.
#[tactic(auto, unfolding(crate::specs::inner::Reading::filter_at))]
fn filter_field<'a>(filters: &mut Vec<Filter>, text: &'a [u8]) -> Result<&'a [u8], Unread>
    ensures read { GivesFilters result filters.new.items (filter_at filters.old.items text.now) }
    ensures count { OnOk result (length filters.new.items ≡ length filters.old.items + 1) }
{
    let Some((id, rest)) = mask_field(text) else {
        return Err(Unread::Bad);
    };
    let Some((mask, rest)) = mask_field(rest) else {
        return Err(Unread::Bad);
    };
    let Ok(filter) = Filter::new(id, mask) else {
        return Err(Unread::Bad);
    };
    match push_filter(filters, filter) {
        Ok(()) => Ok(rest),
        Err(_) => Err(Unread::NoMemory),
    }
}

/// Adds a filter that was read to the list.
fn push_filter(filters: &mut Vec<Filter>, filter: Filter) -> Result<(), AllocError>
    ensures { OnOk result (filters.new.items ≡ filters.old.items ++ filter ∷ []) }
{
    filters.push(filter)?;
    Ok(())
}

/// Reads the name of an option and its value.
#[tactic(auto, unfolding(crate::specs::inner::Reading::option_at))]
fn option_field(text: &[u8]) -> Option<(Opt, &[u8])>
    ensures { with_rest result ≡ option_at text.now }
{
    let (word, rest) = next_word(text);
    if same_word(word, b"loopback") {
        let (on, rest) = flag_field(rest)?;
        return Some((Opt::Loopback(on), rest));
    }
    if same_word(word, b"recvown") {
        let (on, rest) = flag_field(rest)?;
        return Some((Opt::RecvOwn(on), rest));
    }
    if same_word(word, b"join") {
        let (on, rest) = flag_field(rest)?;
        return Some((Opt::Join(on), rest));
    }
    if same_word(word, b"fd") {
        let (on, rest) = flag_field(rest)?;
        return Some((Opt::FdFrames(on), rest));
    }
    if same_word(word, b"errmask") {
        let (mask, rest) = mask_field(rest)?;
        return Some((Opt::ErrMask(mask), rest));
    }
    None
}

/// A verdict.
#[tactic(auto, unfolding(crate::specs::inner::Reading::verdict_at))]
fn verdict_field(text: &[u8]) -> Option<(Verdict, &[u8])>
    ensures { with_rest result ≡ verdict_at text.now }
{
    let (word, rest) = next_word(text);
    if same_word(word, b"good") {
        return Some((Verdict::Good, rest));
    }
    if same_word(word, b"global-bit") {
        return Some((Verdict::Global(GlobalKind::Bit), rest));
    }
    if same_word(word, b"global-form") {
        return Some((Verdict::Global(GlobalKind::Form), rest));
    }
    if same_word(word, b"lastbit") {
        return Some((Verdict::LastBit, rest));
    }
    if begins(text, b"local-stuff:") {
        let (set, rest) = set_from(12, text)?;
        return Some((Verdict::Local(set, LocalKind::Stuff), rest));
    }
    if begins(text, b"local-crc:") {
        let (set, rest) = set_from(10, text)?;
        return Some((Verdict::Local(set, LocalKind::Crc), rest));
    }
    if begins(text, b"local-form:") {
        let (set, rest) = set_from(11, text)?;
        return Some((Verdict::Local(set, LocalKind::Form), rest));
    }
    None
}
