ghost use Rattle.std.specs.Prelude.{◌≡◌, ◌≤◌, ◌+◌, ◌++◌, ◌∷◌, [], IfOk, IfErr, IfSome, IsNone, IsTrue, OnOk, decimal, drop, length};
ghost use Rattle.can_event.specs.Spelled.{FitsReply};
ghost use Rattle.can_record_text.specs.declared.fault.Unread.TheVariants as unread;
ghost use Rattle.can_record_text.specs.Spelling.{spell, answered_line, auto_restart_words, bus_words, end_words, first_line};
ghost use Rattle.can_record_text.specs.Texts.{DecidesLine, StartsWith, StartsWithBus, StartsWithEntry};
ghost use Rattle.can_record_text.specs.Values.{HasLine, HasBusLine, HoldsEvent, HoldsReply};
ghost use Rattle.can_record_text.specs.RecordFaults.{LacksBus, LacksEntry, LacksFirst};
ghost use Rattle.can_record_text.specs.inner.Reading.{Gives, with_rest, ack_at, auto_restart_at, config_at, entry_at, moment_of};

use crate::entry_lines::push_answered;
use crate::event_reading::guess_event;
use crate::fault::Unread;
use crate::fields::{byte_field, set_field, short_field};
use crate::filter_lines::put_filter_line;
use crate::line_words::{LineText, push_ack, push_number, push_set};
use crate::needs::Needs;
use crate::reply_reading::reply_field;
use crate::rooms::Rooms;
use crate::values::{hold_event, hold_reply};
use crate::version::Version;
pub use crate::words::begins;
use crate::words::{next_word, same_word};
use can_attempt::AckMode;
use can_event::{BusConfig, Entry, Event, Reply, is_spelled};
use can_frame::{Moment, Text};
use std::alloc::{AllocError, Global};

/// Appends the line of an event with this reply to `out`.
pub fn put_answered(out: &mut Vec<u8>, event: &Event, reply: &Reply) -> Result<(), AllocError>
    requires { FitsReply event.now reply.now }
    ensures { OnOk result (out.new.items ≡ out.old.items ++ answered_line event.now reply.now []) }
{
    let mut line = Text::new();
    if push_answered(&mut line, event, reply) {
        return out.extend_from_slice(line.as_bytes());
    }
    put_filter_line(out, event, reply)
}

/// Returns whether a text begins with the line of an event with this reply. It spells the line in one of the buffers in
/// `rooms`. The contract also says that the values of the event and the reply are in the ranges that a line can have.
pub fn is_line_of(
    rooms: &mut Rooms,
    event: &Event,
    reply: &Reply,
    text: &[u8],
) -> Result<bool, AllocError>
    requires { FitsReply event.now reply.now }
    ensures line { DecidesLine event.now reply.now text.now result }
    ensures values { HoldsEvent event.now × HoldsReply reply.now }
{
    hold_event(event);
    hold_reply(reply);
    rooms.short.clear();
    if push_answered(&mut rooms.short, event, reply) {
        return Ok(begins(text, rooms.short.as_bytes()));
    }
    is_filter_line_of(&mut rooms.long, event, reply, text)
}

/// Returns whether a text begins with the line of an event that sets filters, with this reply.
#[inline(never)]
fn is_filter_line_of(
    buffer: &mut Vec<u8>,
    event: &Event,
    reply: &Reply,
    text: &[u8],
) -> Result<bool, AllocError>
    ensures { DecidesLine event.now reply.now text.now result }
{
    buffer.clear();
    put_filter_line(buffer, event, reply)?;
    Ok(begins(text, buffer))
}

/// Appends the line of the bus configuration.
pub(crate) fn put_bus(
    out: &mut Vec<u8>,
    version: Version,
    config: BusConfig,
) -> Result<(), AllocError>
    ensures { OnOk result (out.new.items ≡ out.old.items ++ spell (bus_words version config) []) }
{
    let mut line = Text::new();
    line.push_all(b"bus ");
    push_number(&mut line, u64::from(config.ifaces), b' ');
    push_ack(&mut line, config.ack);
    push_set(&mut line, config.reporting, b' ');
    push_number(&mut line, u64::from(config.tx_capacity), b' ');
    push_limit(&mut line, version, config);
    out.extend_from_slice(line.as_bytes())
}

/// Appends the limit of events and the end of the line. In every version except 1, the number of attempts until an
/// automatic restart comes between them.
fn push_limit(line: &mut LineText, version: Version, config: BusConfig)
    requires { length line.old + 42 ≤ 392 }
    ensures { line.new ≡ line.old ++
        spell (decimal config.limit ∷ auto_restart_words version config) [] }
{
    match version {
        Version::One => push_number(line, u64::from(config.limit), b'\n'),
        Version::Two | Version::Three | Version::Four | Version::Five | Version::Six => {
            push_number(line, u64::from(config.limit), b' ');
            push_number(line, u64::from(config.auto_restart), b'\n');
        }
    }
}

/// The last line.
pub fn put_end(out: &mut Vec<u8>, count: u64) -> Result<(), AllocError>
    ensures { OnOk result (out.new.items ≡ out.old.items ++ spell (end_words count) []) }
{
    let mut line = Text::new();
    line.push_all(b"end ");
    push_number(&mut line, count, b'\n');
    out.extend_from_slice(line.as_bytes())
}

/// Returns the rest of a text after this many bytes.
#[tactic(auto, using(crate::proofs::Wording::rest_of))]
pub(crate) fn rest_from(text: &[u8], count: usize) -> &[u8]
    requires { count ≤ length text.now }
    ensures { result.now ≡ drop count text.now }
{
    &text[count..]
}

/// Returns whether an entry has a line in this version of the record of this bus.
fn has_line(version: Version, config: BusConfig, entry: &Entry) -> bool
    ensures yes { IsTrue result → HasLine version config entry.now }
    ensures no { HasLine version config entry.now → IsTrue result }
{
    hold_event(&entry.event);
    hold_reply(&entry.reply);
    is_spelled(config, entry) && version.takes(Needs::of(&entry.event, &entry.reply))
}

/// Returns the version whose first line is at the beginning of the text.
pub fn read_version(text: &[u8]) -> Option<Version>
    ensures found { IfSome result (λ v. StartsWith (first_line v) text.now) }
    ensures only { IsNone result → LacksFirst text.now }
{
    if begins(text, Version::One.first_line()) {
        return Some(Version::One);
    }
    if begins(text, Version::Two.first_line()) {
        return Some(Version::Two);
    }
    if begins(text, Version::Three.first_line()) {
        return Some(Version::Three);
    }
    if begins(text, Version::Four.first_line()) {
        return Some(Version::Four);
    }
    if begins(text, Version::Five.first_line()) {
        return Some(Version::Five);
    }
    if begins(text, Version::Six.first_line()) {
        return Some(Version::Six);
    }
    None
}

/// Reads the entry whose line is at the beginning of the text, in this version of the record of this bus. It leaves the
/// line in `buffer`.
pub fn read_line(
    buffer: &mut Vec<u8>,
    alloc: Global,
    version: Version,
    config: BusConfig,
    text: &[u8],
) -> Result<Entry, Unread>
    ensures found { IfOk result (StartsWithEntry version config text.now buffer.new.items) }
    ensures bad { IfErr result (λ why. why ≡ unread.Bad → LacksEntry version config text.now) }
{
    let read = match guess_entry(alloc, text) {
        Ok(read) => read,
        Err(why) => return Err(why),
    };
    if !has_line(version, config, &read) {
        return Err(Unread::Bad);
    }
    buffer.clear();
    match put_answered(buffer, &read.event, &read.reply) {
        Ok(()) => {}
        Err(_) => return Err(Unread::NoMemory),
    }
    if !begins(text, buffer) {
        return Err(Unread::Bad);
    }
    Ok(read)
}

/// Reads the entry that a line seems to spell.
#[tactic(auto, unfolding(crate::specs::inner::Reading::entry_at))]
fn guess_entry(alloc: Global, text: &[u8]) -> Result<Entry, Unread>
    ensures { Gives result (entry_at text.now) }
{
    let (event, rest) = match guess_event(alloc, text) {
        Ok(found) => found,
        Err(why) => return Err(why),
    };
    let (_, rest) = next_word(rest);
    match reply_field(moment_of(&event), rest) {
        Some((reply, _)) => Ok(Entry { event, reply }),
        None => Err(Unread::Bad),
    }
}

/// Returns the moment of an attempt, or `None` for any other event.
fn moment_of(event: &Event) -> Option<Moment>
    ensures { result ≡ moment_of event.now }
{
    match event {
        Event::Attempt(moment, _) => Some(*moment),
        _ => None,
    }
}

/// Reads the configuration whose line is at the beginning of the text, in this version. It leaves the line in `buffer`.
pub fn read_bus(buffer: &mut Vec<u8>, version: Version, text: &[u8]) -> Result<BusConfig, Unread>
    ensures found { IfOk result (StartsWithBus version text.now buffer.new.items) }
    ensures bad { IfErr result (λ why. why ≡ unread.Bad → LacksBus version text.now) }
{
    let Some(config) = guess_config(version, text) else {
        return Err(Unread::Bad);
    };
    if !has_bus_line(version, config) {
        return Err(Unread::Bad);
    }
    buffer.clear();
    match put_bus(buffer, version, config) {
        Ok(()) => {}
        Err(_) => return Err(Unread::NoMemory),
    }
    if !begins(text, buffer) {
        return Err(Unread::Bad);
    }
    Ok(config)
}

/// Returns whether a configuration has a line in this version.
fn has_bus_line(version: Version, config: BusConfig) -> bool
    ensures yes { IsTrue result → HasBusLine version config }
    ensures no { HasBusLine version config → IsTrue result }
{
    config.is_long_proper() && version.limits(config) && version.restarts(config)
}

/// Reads the configuration that a line of this version seems to spell.
#[tactic(auto, unfolding(crate::specs::inner::Reading::config_at))]
fn guess_config(version: Version, text: &[u8]) -> Option<BusConfig>
    ensures { result ≡ config_at version text.now }
{
    let (_, rest) = next_word(text);
    let (ifaces, rest) = byte_field(rest)?;
    let (ack, rest) = ack_field(rest)?;
    let (reporting, rest) = set_field(rest)?;
    let (tx_capacity, rest) = short_field(rest)?;
    let (limit, rest) = short_field(rest)?;
    let (auto_restart, _) = auto_restart_field(version, rest)?;
    Some(BusConfig {
        ifaces,
        ack,
        reporting,
        tx_capacity,
        limit,
        auto_restart,
    })
}

/// Reads the number of attempts until an automatic restart. It is 0, which means never, in version 1.
#[tactic(auto, unfolding(crate::specs::inner::Reading::auto_restart_at))]
fn auto_restart_field(version: Version, text: &[u8]) -> Option<(u32, &[u8])>
    ensures { with_rest result ≡ auto_restart_at version text.now }
{
    match version {
        Version::One => Some((0, text)),
        Version::Two | Version::Three | Version::Four | Version::Five | Version::Six => {
            short_field(text)
        }
    }
}

/// Who acknowledges.
#[tactic(auto, unfolding(crate::specs::inner::Reading::ack_at))]
fn ack_field(text: &[u8]) -> Option<(AckMode, &[u8])>
    ensures { with_rest result ≡ ack_at text.now }
{
    let (word, rest) = next_word(text);
    if same_word(word, b"always") {
        return Some((AckMode::Always, rest));
    }
    if same_word(word, b"peers") {
        return Some((AckMode::Peers, rest));
    }
    None
}
