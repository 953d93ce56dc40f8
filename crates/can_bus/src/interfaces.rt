ghost use Rattle.std.specs.Prelude.{◌≡◌, ◌+◌, ◌<◌, ◌≤◌, ◌^◌, Some, None, length, slice_get, slice_set, IfOk, replicate, All, Err, ◌≢◌};
ghost use Rattle.std.specs.Option.{option_map};
ghost use Rattle.can_attempt.specs.Attempts.{counts_at};
ghost use Rattle.can_bus.specs.Changes.{Sends, emptied, pending_of, settled};
ghost use Rattle.can_bus.specs.State.{InterfaceState, fresh_interface, key_in};
ghost use Rattle.can_bus.specs.Stats.{lost_of, told_interface};

use crate::interface::Interface;
use crate::sockets;
use crate::state::State;
use can_arbiter::Arbiter;
use can_attempt::Class;
use can_confine::State as Confinement;
use can_event::{IfaceStats, Pending, Received, Refusal, SocketId};
use can_frame::{Frame, Iface};
use can_queue::{BoundedQueue, QueueError};
use std::alloc::Global;

/// Returns the interfaces of a new bus.
pub fn make<T: BoundedQueue<Pending>>(
    alloc: Global,
    count: u8,
    capacity: usize,
) -> Result<Vec<Interface<T>>, QueueError>
    ensures made { IfOk result (λ interfaces.
        interfaces.items ≡ replicate count (fresh_interface capacity)) }
    ensures bad { (capacity ≢ 0) → (result ≢ Err QueueError.BadCapacity) }
{
    let mut interfaces = Vec::with_capacity(alloc, count as usize)?;
    for _ in 0..count {
        let interface = Interface::new(alloc, capacity)?;
        if interfaces.push(interface).is_err() {
            return Err(QueueError::NoMemory);
        }
    }
    Ok(interfaces)
}

/// Sets the arbitration key of an interface in the arbiter, or clears it.
pub fn set_key<A: Arbiter>(arbiter: &mut A, iface: Iface, key: Option<u32>)
    ensures { A.keys_of arbiter.new ≡ slice_set (A.keys_of arbiter.old) iface key }
{
    match key {
        Some(key) => arbiter.set(iface, key),
        None => arbiter.clear(iface),
    }
}

/// Updates an interface after an attempt with its first frame, and gives the arbiter the key of its
/// next frame.
pub fn finish_attempt<T: BoundedQueue<Pending>, A: Arbiter>(
    interfaces: &mut Vec<Interface<T>>,
    arbiter: &mut A,
    iface: Iface,
    class: Class,
    is_off: bool,
)
    requires within { iface < length interfaces.old.items }
    requires gone { All (λ l. l.gone + 1 < 2 ^ 64) interfaces.old.items }
    requires done { All (λ l. l.done + 1 < 2 ^ 64) interfaces.old.items }
    ensures interfaces { (l : InterfaceState) → slice_get interfaces.old.items iface ≡ Some l →
        interfaces.new.items ≡ slice_set interfaces.old.items iface (settled class is_off l) }
    ensures keys { (l : InterfaceState) → slice_get interfaces.old.items iface ≡ Some l →
        A.keys_of arbiter.new ≡ slice_set (A.keys_of arbiter.old) iface
        (key_in (slice_get (settled class is_off l).waiting 0)) }
{
    let interface = &mut interfaces[iface.number() as usize];
    interface.finish_attempt(class, is_off);
    let key = interface.head_key();
    set_key(arbiter, iface, key);
}

/// Drops all waiting frames of an interface as lost, and removes its key from the arbiter.
pub fn lose_all<T: BoundedQueue<Pending>, A: Arbiter>(
    interfaces: &mut Vec<Interface<T>>,
    arbiter: &mut A,
    iface: Iface,
)
    requires within { iface < length interfaces.old.items }
    ensures interfaces { (l : InterfaceState) → slice_get interfaces.old.items iface ≡ Some l →
        interfaces.new.items ≡ slice_set interfaces.old.items iface (emptied l) }
    ensures keys { A.keys_of arbiter.new ≡ slice_set (A.keys_of arbiter.old) iface None }
{
    interfaces[iface.number() as usize].lose_all();
    arbiter.clear(iface);
}

impl<T: BoundedQueue<Pending>, R: BoundedQueue<Received>, A: Arbiter> State<T, R, A> {
    /// Sends a frame on a socket.
    pub(crate) fn send(&mut self, id: SocketId, frame: Frame) -> Result<u64, Refusal>
        requires sent { All (λ l. l.sent + 1 < 2 ^ 64) self.old.interfaces }
        requires refused { All (λ l. l.refused + 1 < 2 ^ 64) self.old.interfaces }
        requires known { All (λ v. v.iface < length self.old.interfaces) self.old.sockets }
        ensures { Sends self.old id.0 (pending_of frame id) result self.new }
    {
        let Some(k) = sockets::find(&self.sockets, id) else {
            return Err(Refusal::NoSocket);
        };
        let socket = &self.sockets[k];
        if socket.lacks_fd(&frame) {
            return Err(Refusal::FdOff);
        }
        let iface = socket.iface();
        match self.nodes.counters_of(iface).state() {
            Confinement::Off => return Err(Refusal::BusOff),
            Confinement::Down => return Err(Refusal::Down),
            Confinement::Active | Confinement::Warning | Confinement::Passive => {}
        }
        let pending = Pending {
            frame,
            socket: id,
            loopback: socket.options().loopback,
        };
        let interface = &mut self.interfaces[iface.number() as usize];
        let Some(number) = interface.send(pending) else {
            return Err(Refusal::NoBuffers);
        };
        let key = interface.head_key();
        set_key(&mut self.arbiter, iface, key);
        Ok(number)
    }

    /// Returns the number of interfaces.
    pub fn iface_count(&self) -> usize
        ensures { result ≡ length self.now.interfaces }
    {
        self.interfaces.len()
    }

    /// Returns the number of frames of an interface that were lost when it went bus off or down.
    pub fn lost_at(&self, place: usize) -> Option<u64>
        ensures { result ≡ option_map lost_of (slice_get self.now.interfaces place) }
    {
        let interface = self.interfaces.get(place)?;
        Some(interface.gone().saturating_sub(interface.done()))
    }

    /// Returns the counts of an interface.
    pub fn iface_stats(&self, iface: Iface) -> Option<IfaceStats>
        requires { All (λ l. l.done ≤ l.gone) self.now.interfaces }
        ensures { result
            ≡ option_map (told_interface (counts_at self.now.nodes iface))
            (slice_get self.now.interfaces iface) }
    {
        let interface = self.interfaces.get(iface.number() as usize)?;
        Some(IfaceStats {
            sent: interface.sent(),
            done: interface.done(),
            waiting: interface.waiting(),
            lost: interface.gone() - interface.done(),
            refused: interface.refused(),
            counters: self.nodes.counters_of(iface),
        })
    }
}
