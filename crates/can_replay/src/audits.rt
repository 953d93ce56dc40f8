ghost use Rattle.std.specs.Prelude.{◌≡◌, reverse, OnOk, IfErr};
ghost use Rattle.can_bus.specs.Headline.{Headline};
ghost use Rattle.can_replay.specs.Audits.{Blames, fault_at};
ghost use Rattle.can_replay.specs.Histories.{HasLegalHistory};

use crate::same::same_reply;
use can_bus::{LeanRingBus, Record, Refusal, Reply};
use std::alloc::Global;
use thiserror::Error;

/// The reason why a record is not legal or could not be audited.
#[derive(Debug, Clone, Copy, PartialEq, Eq, Error)]
pub enum AuditFault {
    /// The index of the first wrong entry, counted from 0, and the reply that would be legal there. An entry is wrong if its reply
    /// does not follow from the entries before it, or if it exceeds the limit of entries. If it exceeds the limit, `legal` is
    /// `None`.
    #[error("entry {entry}: wrong")]
    Wrong { entry: usize, legal: Option<Reply> },
    /// An allocation failed.
    #[error("no memory")]
    NoMemory,
}

/// Returns the fault to report for an entry if the bus answers its event with this different reply.
fn fault_at(entry: usize, reply: Reply) -> AuditFault
    ensures { result ≡ fault_at entry reply }
{
    match reply {
        Reply::Refused(Refusal::NoMemory) => AuditFault::NoMemory,
        Reply::Refused(Refusal::RecordFull) => AuditFault::Wrong { entry, legal: None },
        legal => AuditFault::Wrong {
            entry,
            legal: Some(legal),
        },
    }
}

/// Checks that a record is a legal history: each reply follows from the entries before it, and the number of entries is within the
/// limit. If not, the `Wrong` error contains the first wrong entry and the reply that would be legal there. If the result is `Ok`,
/// the headline property (`can_bus::run`) holds for the record. The function carries out the events again on a bus that keeps no
/// record. The running time is that of the bus's calls: it grows linearly with the number of entries and their filters. Only the
/// bus, `open` and `set_filters` allocate memory. `NoMemory` means that an allocation failed; the record may then be legal or not.
pub fn audit(alloc: Global, record: &Record) -> Result<(), AuditFault>
    ensures legal { OnOk result (HasLegalHistory «record».now) }
    ensures headline { OnOk result (Headline «record».now.config «record».now.history) }
    ensures wrong { IfErr result (Blames «record».now.config (reverse «record».now.history)) }

    // A legal record is never reported as wrong.
    ensures spared { HasLegalHistory «record».now →
        IfErr result (λ why. why ≡ AuditFault.NoMemory) }
{
    let Ok(mut bus) = LeanRingBus::new(alloc, record.config()) else {
        return Err(AuditFault::NoMemory);
    };
    for i in 0..record.len() {
        let looked = record.entry(i).unwrap();
        let entry = looked.entry();
        let reply = bus.answer(alloc, &entry.event);
        if !same_reply(&reply, &entry.reply) {
            return Err(fault_at(i, reply));
        }
    }
    Ok(())
}
