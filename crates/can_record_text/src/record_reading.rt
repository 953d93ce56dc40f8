ghost use Rattle.std.specs.Prelude.{◌≡◌, ◌≢◌, ◌<◌, ◌^◌, ◌⊎◌, [], All, Err, IfErr, IfOk, IfSome, IsNone};
ghost use Rattle.can_record_text.specs.Values.{HasLine};
ghost use Rattle.can_record_text.specs.Spelling.{entry_lines, first_line};
ghost use Rattle.can_record_text.specs.RecordFaults.{IsOfLongRun, LacksEntry, LacksFirst, Ends, ReadsBack, ReadsRecord};
ghost use Rattle.can_record_text.specs.Texts.{StartsWith};
ghost use Rattle.can_record_text.specs.declared.version.Version.TheVariants as version;
ghost use Rattle.can_record_text.specs.inner.Fronts.{HasFront};

use crate::fault::{ReadFault, Unread};
use crate::lines::{begins, put_end, read_bus, read_line, read_version, rest_from};
use crate::needs::Needs;
use crate::version::Version;
use can_event::{BusConfig, Entry, Received};
use can_frame::Item;
use can_record::Record;
use std::alloc::{AllocError, Global};

/// Reads a record from its text. Only a text that `record_text` writes is accepted.
///
/// The fault is `BadVersion` if the text does not begin with the first line of version 1, 2, 3, 5 or 6. (Version 4 is for a
/// run longer than a `Record`.) Otherwise it is `BadLine` with the number of the first line that is wrong or missing, from
/// 1. If the text continues after its end, this is the line after the end. Last, the fault is `BadVersion` if a text of
/// version 3 has neither an FD frame nor the option for FD frames, if one of version 5 has no flag of an FD frame, or if
/// one of version 6 has no interface that goes down or is down. The time is linear in the length of the text. Reading a
/// line allocates memory only for the filters that it sets.
pub fn read_record(alloc: Global, text: &str) -> Result<Record, ReadFault>
    ensures reads { ReadsRecord text.now result }
    ensures back { ReadsBack text.now result }
{
    read_record_bytes(alloc, text.as_bytes())
}

/// Reads a record from the bytes of its text, as `read_record` does. The bytes need not be UTF-8.
pub fn read_record_bytes(alloc: Global, text: &[u8]) -> Result<Record, ReadFault>
    ensures reads { ReadsRecord text.now result }
    ensures back { ReadsBack text.now result }
{
    read_text(alloc, text)
}

fn read_text(alloc: Global, text: &[u8]) -> Result<Record, ReadFault>
    ensures { ReadsRecord text.now result }
{
    let mut buffer = Vec::new(alloc);
    let (version, config, rest) = match read_front(&mut buffer, text) {
        Ok(front) => front,
        Err(why) => return Err(why),
    };
    let mut entries = Vec::new(alloc);
    let Ok(rest) = read_lines(alloc, version, config, &mut buffer, &mut entries, rest) else {
        return Err(ReadFault::NoMemory);
    };
    match read_end(&mut buffer, entries.len(), rest) {
        Ok(()) => {}
        Err(why) => return Err(why),
    }
    if version.is_needless(Needs::of_entries(&entries)) {
        return Err(ReadFault::BadVersion);
    }
    Ok(Record::from_spelled(config, entries))
}

/// Reads the version and the bus configuration from the first two lines, and returns them with the rest of the text.
fn read_front<'a>(
    buffer: &mut Vec<u8>,
    text: &'a [u8],
) -> Result<(Version, BusConfig, &'a [u8]), ReadFault>
    ensures front { IfOk result (λ x. HasFront text.now x.0 x.1 x.2.now) }
    ensures short { IfOk result (λ x. x.0 ≢ version.Four) }
    ensures fault { IfErr result (λ why. ReadsRecord text.now (Err why)) }
{
    let Some(version) = record_version(text) else {
        return Err(ReadFault::BadVersion);
    };
    let rest = rest_from(text, version.first_line().len());
    let config = match read_bus(buffer, version, rest) {
        Ok(config) => config,
        Err(Unread::Bad) => return Err(ReadFault::BadLine(2)),
        Err(Unread::NoMemory) => return Err(ReadFault::NoMemory),
    };
    Ok((version, config, rest_from(rest, buffer.len())))
}

/// Returns the version that the first line of a record names, unless it is the version of a long run.
fn record_version(text: &[u8]) -> Option<Version>
    ensures found { IfSome result (λ v. StartsWith (first_line v) text.now) }
    ensures short { IfSome result (λ v. v ≢ version.Four) }
    ensures only { IsNone result → LacksFirst text.now ⊎ IsOfLongRun text.now }
{
    match read_version(text) {
        Some(Version::Four) => None,
        found => found,
    }
}

/// Checks that the text ends here, after this many entries.
fn read_end(buffer: &mut Vec<u8>, count: usize, text: &[u8]) -> Result<(), ReadFault>
    requires { count < 2 ^ 63 }
    ensures { Ends count text.now result }
{
    let count = count as u64;
    buffer.clear();
    match put_end(buffer, count) {
        Ok(()) => {}
        Err(_) => return Err(ReadFault::NoMemory),
    }
    if !begins(text, buffer) {
        return Err(ReadFault::BadLine(count + 3));
    }
    if text.len() > buffer.len() {
        return Err(ReadFault::BadLine(count + 4));
    }
    Ok(())
}

/// Reads the entries of the lines at the beginning of the text, in this version of the record of this bus. It stops at the
/// first line that is not an entry, and returns the rest of the text.
fn read_lines<'a>(
    alloc: Global,
    version: Version,
    config: BusConfig,
    buffer: &mut Vec<u8>,
    entries: &mut Vec<Entry>,
    text: &'a [u8],
) -> Result<&'a [u8], AllocError>
    requires { entries.old.items ≡ [] }
    ensures lines { IfOk result (λ rest. text.now ≡ entry_lines entries.new.items rest.now) }
    ensures have { IfOk result (λ rest. All (HasLine version config) entries.new.items) }
    ensures stops { IfOk result (λ rest. LacksEntry version config rest.now) }
{
    // The checker has to see the types inside an entry before a vector stores one.
    let _types: Option<(Item, Received)> = None;
    let mut rest = text;
    loop {
        match read_line(buffer, alloc, version, config, rest) {
            Ok(entry) => entries.push(entry)?,
            Err(Unread::Bad) => return Ok(rest),
            Err(Unread::NoMemory) => return Err(AllocError),
        }
        rest = rest_from(rest, buffer.len());
    }
}
