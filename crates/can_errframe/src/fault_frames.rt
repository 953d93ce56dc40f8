ghost use Rattle.std.specs.Prelude.{◌≡◌, ◌<◌, ◌^◌};
ghost use Rattle.can_errframe.specs.ErrorMessages.{fault_message, fault_codes, fault_class, local_codes, global_codes};
ghost use Rattle.can_errframe.specs.declared.role.Role.TheVariants.{Winner, Named, Other};

use crate::codes::*;
use crate::role::Role;
use crate::state_frames::frame_of;
use can_attempt::Class;
use can_fault::{GlobalKind, LocalKind, Verdict};
use can_frame::ErrorFrame;

/// Returns the kind and the place of a local fault, as the affected receiver reports them.
fn local_codes(kind: LocalKind) -> (u8, u8)
    ensures { result ≡ local_codes kind }
{
    match kind {
        LocalKind::Stuff => (CAN_ERR_PROT_STUFF, CAN_ERR_PROT_LOC_DATA),
        LocalKind::Crc => (CAN_ERR_PROT_UNSPEC, CAN_ERR_PROT_LOC_CRC_SEQ),
        LocalKind::Form => (CAN_ERR_PROT_FORM, CAN_ERR_PROT_LOC_ACK_DEL),
    }
}

/// Returns the kind and the place of a fault of the whole bus, as the transmitter reports them.
fn global_codes(kind: GlobalKind) -> (u8, u8)
    ensures { result ≡ global_codes kind }
{
    match kind {
        GlobalKind::Bit => (CAN_ERR_PROT_TX | CAN_ERR_PROT_BIT, CAN_ERR_PROT_LOC_DATA),
        GlobalKind::Form => (
            CAN_ERR_PROT_TX | CAN_ERR_PROT_FORM,
            CAN_ERR_PROT_LOC_ACK_DEL,
        ),
    }
}

/// Returns the kind and the place of the fault that the transmitter sees, if it sees one.
fn winner_codes(class: Class, verdict: Verdict) -> Option<(u8, u8)>
    ensures { result ≡ fault_codes class verdict Winner }
{
    match (class, verdict) {
        (Class::Destroyed, Verdict::Global(kind)) => Some(global_codes(kind)),
        (Class::Destroyed, Verdict::Local(_, _)) => {
            Some((CAN_ERR_PROT_TX | CAN_ERR_PROT_BIT, CAN_ERR_PROT_LOC_UNSPEC))
        }
        (Class::LastBit, Verdict::LastBit) => {
            Some((CAN_ERR_PROT_TX | CAN_ERR_PROT_FORM, CAN_ERR_PROT_LOC_EOF))
        }
        (Class::NoAck, Verdict::Good | Verdict::LastBit | Verdict::Local(_, _)) => {
            Some((CAN_ERR_PROT_TX, CAN_ERR_PROT_LOC_ACK))
        }
        _ => None,
    }
}

/// Returns the kind and the place of the fault that a receiver named by the verdict sees, if it sees one.
fn named_codes(class: Class, verdict: Verdict) -> Option<(u8, u8)>
    ensures { result ≡ fault_codes class verdict Named }
{
    match verdict {
        Verdict::Local(_, kind) if class != Class::LastBit => Some(local_codes(kind)),
        Verdict::Global(_) if class == Class::Destroyed => {
            Some((CAN_ERR_PROT_STUFF, CAN_ERR_PROT_LOC_UNSPEC))
        }
        _ => None,
    }
}

/// Returns the kind and the place of the fault that any other receiver sees: the error flag of another node.
fn other_codes(class: Class, verdict: Verdict) -> Option<(u8, u8)>
    ensures { result ≡ fault_codes class verdict Other }
{
    match (class, verdict) {
        (Class::Destroyed, Verdict::Global(_) | Verdict::Local(_, _)) => {
            Some((CAN_ERR_PROT_STUFF, CAN_ERR_PROT_LOC_UNSPEC))
        }
        _ => None,
    }
}

/// Returns the error class of a fault frame.
fn fault_class(class: Class, role: Role) -> u32
    ensures class { result ≡ fault_class class role }
    ensures fits { result < 2 ^ 29 }
{
    if class == Class::NoAck && role == Role::Winner {
        CAN_ERR_BUSERROR | CAN_ERR_ACK
    } else {
        CAN_ERR_BUSERROR | CAN_ERR_PROT
    }
}

/// Returns the frame that reports to an interface the fault that it saw in an attempt, or `None` if it saw none. The fault
/// follows from the attempt's class, its verdict, and the role of the interface.
pub fn fault_frame(class: Class, verdict: Verdict, role: Role) -> Option<ErrorFrame>
    ensures { result ≡ fault_message class verdict role }
{
    let (kind, place) = match role {
        Role::Winner => winner_codes(class, verdict),
        Role::Named => named_codes(class, verdict),
        Role::Other => other_codes(class, verdict),
    }?;
    let bytes = [0, 0, kind, place, 0, 0, 0, 0];
    Some(frame_of(fault_class(class, role), bytes))
}
