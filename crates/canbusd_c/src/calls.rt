//! Carries out each exported function on the bus of a handle.
ghost use Rattle.std.specs.Prelude.{◌≡◌};
ghost use Rattle.can_event.specs.declared.event.Event.TheVariants as event;
ghost use Rattle.can_rules.specs.Plans.{without_rules};
ghost use Rattle.canbusd_c.specs.Locals.{local_with_plan};
ghost use Rattle.canbusd_c.specs.Shapes.{frame_of_struct, option_of_numbers};
ghost use Rattle.canbusd_c.specs.Codes.{IsUntouched};
ghost use Rattle.canbusd_c.specs.Calls.{IsOpenCall, IsCloseCall, IsSendCall, IsOptionCall, IsReceiveCall, IsAttemptCall, IsRunCall, IsChangeCall, IsInjectCall, IsAttemptTold, IsItemTold, iface_of_number, moment_of_micros};

use crate::codes::{
    BAD_FRAME, BAD_MOMENT, BAD_OPTION, NO_INTERFACE, NOTHING, OK, done_code, number_code,
    refusal_code, rule_code, run_code,
};
use crate::local_bus::LocalBus;
use crate::shapes::{CClosed, CFrame, CItem, CTried};
use crate::shaping::{frame_in, item_out, option_in, tried_out};
use can_bus::{Attempt, Received, Refusal, SocketId};
use can_frame::{Iface, Moment};

/// Opens a socket on the interface with this number.
pub fn open(bus: &mut LocalBus, iface: u32, capacity: u32, socket: &mut u32) -> u32
    ensures opened { IsOpenCall (iface_of_number iface) capacity bus.old result socket.new bus.new }
    ensures kept { IsUntouched result socket.old socket.new }
{
    let Some(iface) = iface_of(iface) else {
        return NO_INTERFACE;
    };
    match bus.open(iface, capacity) {
        Ok(SocketId(number)) => {
            *socket = number;
            OK
        }
        Err(why) => refusal_code(why),
    }
}

/// Closes a socket.
pub fn close(bus: &mut LocalBus, socket: u32, left: &mut CClosed) -> u32
    ensures closed { IsCloseCall socket bus.old result left.new bus.new }
    ensures kept { IsUntouched result left.old left.new }
{
    match bus.close(SocketId(socket)) {
        Ok(counts) => {
            *left = CClosed {
                unread: counts.unread,
                dropped: counts.dropped,
            };
            OK
        }
        Err(why) => refusal_code(why),
    }
}

/// Sets an option of a socket.
pub fn set_option(bus: &mut LocalBus, socket: u32, option: u32, value: u32) -> u32
    ensures { IsOptionCall socket (option_of_numbers option value) bus.old result bus.new }
{
    match option_in(option, value) {
        Some(option) => done_code(bus.set_option(SocketId(socket), option)),
        None => BAD_OPTION,
    }
}

/// Puts a frame into the transmit queue of a socket's interface.
pub fn send(bus: &mut LocalBus, socket: u32, frame: &CFrame, number: &mut u64) -> u32
    ensures sent { IsSendCall socket (frame_of_struct frame.now) bus.old result number.new bus.new }
    ensures kept { IsUntouched result number.old number.new }
{
    match frame_in(frame) {
        Some(frame) => number_code(bus.send(SocketId(socket), frame), number),
        None => BAD_FRAME,
    }
}

/// Takes the oldest item from the receive queue of a socket.
pub fn receive(bus: &mut LocalBus, socket: u32, item: &mut CItem) -> u32
    ensures received { IsReceiveCall socket bus.old result item.new bus.new }
    ensures kept { IsUntouched result item.old item.new }
{
    let mut room = Received::nothing();
    let outcome = bus.receive_into(SocketId(socket), &mut room);
    item_code(&outcome, &room, item)
}

/// Returns the code of a receive. If an item was taken, it is written to `item`.
fn item_code(outcome: &Result<bool, Refusal>, room: &Received, item: &mut CItem) -> u32
    ensures told { IsItemTold room.now outcome.now result item.new }
    ensures kept { IsUntouched result item.old item.new }
{
    match outcome {
        Ok(true) => {
            *item = item_out(room);
            OK
        }
        Ok(false) => NOTHING,
        Err(why) => refusal_code(*why),
    }
}

/// Makes an attempt to send a frame at this moment.
pub fn attempt(bus: &mut LocalBus, moment: u64, tried: &mut CTried) -> u32
    ensures attempted { IsAttemptCall (moment_of_micros moment) bus.old result tried.new bus.new }
    ensures kept { IsUntouched result tried.old tried.new }
{
    let Some(moment) = moment_of(moment) else {
        return BAD_MOMENT;
    };
    let outcome = bus.attempt_at(moment);
    tried_code(&outcome, tried)
}

/// Returns the code of an attempt. If the attempt was made, its result is written to `tried`.
fn tried_code(outcome: &Result<Attempt, Refusal>, tried: &mut CTried) -> u32
    ensures told { IsAttemptTold outcome.now result tried.new }
    ensures kept { IsUntouched result tried.old tried.new }
{
    match outcome {
        Ok(attempt) => {
            *tried = tried_out(attempt);
            OK
        }
        Err(why) => refusal_code(*why),
    }
}

/// Makes all attempts that are due before this moment. How many attempts were made is written to `made`.
pub fn run(bus: &mut LocalBus, moment: u64, made: &mut u64) -> u32
    ensures ran { IsRunCall (moment_of_micros moment) bus.old result made.new bus.new }
    ensures kept { IsUntouched result made.old made.new }
{
    match moment_of(moment) {
        Some(moment) => run_code(bus.run_to(moment), made),
        None => BAD_MOMENT,
    }
}

/// Restarts an interface.
pub fn restart(bus: &mut LocalBus, iface: u32, moment: u64) -> u32
    ensures { IsChangeCall event.Restart (iface_of_number iface) (moment_of_micros moment) bus.old
        result bus.new }
{
    let Some(iface) = iface_of(iface) else {
        return NO_INTERFACE;
    };
    match moment_of(moment) {
        Some(moment) => done_code(bus.restart(iface, moment)),
        None => BAD_MOMENT,
    }
}

/// Takes an interface down.
pub fn down(bus: &mut LocalBus, iface: u32, moment: u64) -> u32
    ensures { IsChangeCall event.Down (iface_of_number iface) (moment_of_micros moment) bus.old
        result bus.new }
{
    let Some(iface) = iface_of(iface) else {
        return NO_INTERFACE;
    };
    match moment_of(moment) {
        Some(moment) => done_code(bus.down(iface, moment)),
        None => BAD_MOMENT,
    }
}

/// Adds a fault rule to the bus.
pub fn inject(bus: &mut LocalBus, rule: &[u8]) -> u32
    ensures { IsInjectCall rule.now bus.old result bus.new }
{
    rule_code(bus.inject(rule))
}

/// Returns the interface with this number, if the number is less than 16.
pub fn iface_of(number: u32) -> Option<Iface>
    ensures { result ≡ iface_of_number number }
{
    if number < 16 {
        Iface::new(number as u8)
    } else {
        None
    }
}

/// Returns the moment at this number of microseconds, if it is in range.
pub fn moment_of(micros: u64) -> Option<Moment>
    ensures { result ≡ moment_of_micros micros }
{
    Moment::new(micros).ok()
}
