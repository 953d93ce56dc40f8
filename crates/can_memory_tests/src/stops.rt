use can_audit::{AuditFault, ReadFault, ReplayFault};
use can_bus::{BusFault, Refusal};
use can_fault::ScriptError;
use can_filter::{FilterError, InvalidFilter};
use can_frame::{IdTooLarge, MomentTooLarge, NamesError, TooLong};
use can_proto::ProtoFault;
use can_queue::QueueError;
use std::alloc::AllocError;

/// Why a trial ended early.
#[derive(Debug, Clone, Copy, PartialEq, Eq)]
pub enum Stop {
    /// An allocation failed.
    NoMemory,
    /// A result differs from the result with enough memory, or a failed call changed something.
    Wrong,
}

/// Ends the trial with `Wrong` if the condition is false.
pub fn demand(is_right: bool) -> Result<(), Stop> {
    if is_right { Ok(()) } else { Err(Stop::Wrong) }
}

impl From<AllocError> for Stop {
    fn from(_: AllocError) -> Stop {
        Stop::NoMemory
    }
}

impl From<NamesError> for Stop {
    fn from(fault: NamesError) -> Stop {
        match fault {
            NamesError::NoMemory => Stop::NoMemory,
            _ => Stop::Wrong,
        }
    }
}

impl From<ScriptError> for Stop {
    fn from(fault: ScriptError) -> Stop {
        match fault {
            ScriptError::NoMemory => Stop::NoMemory,
            _ => Stop::Wrong,
        }
    }
}

impl From<FilterError> for Stop {
    fn from(fault: FilterError) -> Stop {
        match fault {
            FilterError::NoMemory => Stop::NoMemory,
            _ => Stop::Wrong,
        }
    }
}

impl From<QueueError> for Stop {
    fn from(fault: QueueError) -> Stop {
        match fault {
            QueueError::NoMemory => Stop::NoMemory,
            _ => Stop::Wrong,
        }
    }
}

impl From<ProtoFault> for Stop {
    fn from(fault: ProtoFault) -> Stop {
        match fault {
            ProtoFault::NoMemory => Stop::NoMemory,
            _ => Stop::Wrong,
        }
    }
}

impl From<BusFault> for Stop {
    fn from(fault: BusFault) -> Stop {
        match fault {
            BusFault::NoMemory => Stop::NoMemory,
            _ => Stop::Wrong,
        }
    }
}

impl From<Refusal> for Stop {
    fn from(fault: Refusal) -> Stop {
        match fault {
            Refusal::NoMemory => Stop::NoMemory,
            _ => Stop::Wrong,
        }
    }
}

impl From<ReadFault> for Stop {
    fn from(fault: ReadFault) -> Stop {
        match fault {
            ReadFault::NoMemory => Stop::NoMemory,
            _ => Stop::Wrong,
        }
    }
}

impl From<AuditFault> for Stop {
    fn from(fault: AuditFault) -> Stop {
        match fault {
            AuditFault::NoMemory => Stop::NoMemory,
            _ => Stop::Wrong,
        }
    }
}

impl From<ReplayFault> for Stop {
    fn from(fault: ReplayFault) -> Stop {
        match fault {
            ReplayFault::NoMemory => Stop::NoMemory,
            _ => Stop::Wrong,
        }
    }
}

impl From<InvalidFilter> for Stop {
    fn from(_: InvalidFilter) -> Stop {
        Stop::Wrong
    }
}

impl From<IdTooLarge> for Stop {
    fn from(_: IdTooLarge) -> Stop {
        Stop::Wrong
    }
}

impl From<TooLong> for Stop {
    fn from(_: TooLong) -> Stop {
        Stop::Wrong
    }
}

impl From<MomentTooLarge> for Stop {
    fn from(_: MomentTooLarge) -> Stop {
        Stop::Wrong
    }
}
