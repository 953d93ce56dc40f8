ghost use Rattle.std.specs.Prelude.{◌≡◌, List, ℕ, All, IfOk, reverse};
ghost use Rattle.can_event.specs.declared.bus_config.BusConfig.{BusConfig as AConfig};
ghost use Rattle.can_event.specs.declared.entry.Entry.{Entry as AnEntry};
ghost use Rattle.can_event.specs.Events.{IsConfig};
ghost use Rattle.can_event.specs.Spelled.{IsSpelled};
ghost use Rattle.can_record_text.specs.declared.version.Version.TheVariants as version;
ghost use Rattle.can_record_text.specs.Values.{HasBusLine, HasLine};
ghost use Rattle.can_record_text.specs.RecordFaults.{IsTextOf, IsRecordText, IsOfNoVersion, IsFirstWrong};

use crate::fault::ReadFault;
use crate::record_reading::read_record_bytes;
use crate::record_writing::record_text;
use crate::values::{hold_event, hold_reply};
use can_event::{BusConfig, Entry};
use can_record::Record;
use std::alloc::{AllocError, Global};

/// No two different records have the same text.
pub fn record_texts_tell_records_apart()
    ensures { (text : List ℕ) (c d : AConfig) (es ds : List AnEntry) →
        IsTextOf text c es → IsTextOf text d ds → (c ≡ d) × (es ≡ ds) }
{}

/// At most one of these holds for a text: it is the text of a record, it is of no version, or it has a first wrong line. It
/// has at most one first wrong line.
pub fn a_text_is_at_fault_in_one_way()
    ensures whole { (text : List ℕ) (n : ℕ) → IsRecordText text → ¬ IsFirstWrong text n }
    ensures first { (text : List ℕ) → IsRecordText text → ¬ IsOfNoVersion text }
    ensures version { (text : List ℕ) (n : ℕ) → IsOfNoVersion text → ¬ IsFirstWrong text n }
    ensures line { (text : List ℕ) (n m : ℕ) → IsFirstWrong text n → IsFirstWrong text m → n ≡ m }
{}

/// The text that is written for a record is read back as the same record, unless memory is refused.
pub fn read_back(alloc: Global, kept: &Record) -> Result<Record, AllocError>
    ensures config { IfOk result (λ r. r.config ≡ kept.now.config) }
    ensures history { IfOk result (λ r. r.history ≡ kept.now.history) }
{
    hold_config(kept.config());
    hold_lines(kept);
    let text = record_text(alloc, kept)?;
    match read_record_bytes(alloc, &text) {
        Ok(read) => Ok(read),
        Err(_) => Err(AllocError),
    }
}

/// A configuration within the limits has a line in version 6.
fn hold_config(config: BusConfig)
    requires { IsConfig config }
    ensures { HasBusLine version.Six config }
{
    let _bits = config.reporting.0;
}

/// The entries of a record have lines in version 6.
fn hold_lines(kept: &Record)
    ensures { All (HasLine version.Six «kept».now.config) (reverse «kept».now.history) }
{
    let config = kept.config();
    for place in 0..kept.len() {
        let looked = kept.entry(place).unwrap();
        hold_line(config, looked.entry());
    }
}

fn hold_line(config: BusConfig, entry: &Entry)
    requires { IsSpelled config entry.now }
    ensures { HasLine version.Six config entry.now }
{
    hold_event(&entry.event);
    hold_reply(&entry.reply);
}
