use can_bus::{Event, Reply};
use can_frame::Iface;
use can_station::StationRefusal;

/// Counts of a session's calls, for the program that runs the session. No contract mentions them.
#[derive(Debug, Clone, Copy)]
pub struct Tally {
    /// How many sends were refused with a refusal that is in the record.
    pub refused: u64,
    /// The number of items dropped at the sockets of the session. A socket's items are counted when it is closed.
    pub dropped: u64,
    restarted: Option<Iface>,
    downed: Option<Iface>,
}

/// The properties of a call that a tally counts.
#[derive(Clone, Copy)]
pub(crate) struct Counted {
    is_send: bool,
    restarts: Option<Iface>,
    downs: Option<Iface>,
}

impl Counted {
    /// Returns the properties that a tally counts, for the call with this event.
    pub(crate) fn of(event: &Event) -> Counted {
        Counted {
            is_send: matches!(event, Event::Send(_, _)),
            restarts: match event {
                Event::Restart(iface, _) => Some(*iface),
                _ => None,
            },
            downs: match event {
                Event::Down(iface, _) => Some(*iface),
                _ => None,
            },
        }
    }
}

impl Tally {
    /// Returns a tally that has counted no calls.
    pub fn none() -> Tally {
        Tally {
            refused: 0,
            dropped: 0,
            restarted: None,
            downed: None,
        }
    }

    /// Counts a call and its outcome. A call that added no entry to the record is not counted.
    pub(crate) fn add(&mut self, call: Counted, outcome: &Result<Reply, StationRefusal>) {
        let Ok(reply) = outcome else {
            return;
        };
        match reply {
            Reply::Refused(_) => {
                if call.is_send && reply.enters() {
                    self.refused = self.refused.saturating_add(1);
                }
            }
            Reply::Closed(closed) => {
                self.dropped = self.dropped.saturating_add(closed.dropped);
            }
            Reply::Done => {
                note(&mut self.restarted, &mut self.downed, call.restarts);
                note(&mut self.downed, &mut self.restarted, call.downs);
            }
            _ => {}
        }
    }

    /// Counts a send and its outcome. Only a refusal that is in the record changes the tally.
    pub(crate) fn add_send(&mut self, outcome: &Result<u64, StationRefusal>) {
        match outcome {
            Err(StationRefusal::Bus(why)) if why.leaves_entry() => {
                self.refused = self.refused.saturating_add(1);
            }
            _ => {}
        }
    }

    /// Returns the interface that was restarted most recently since the last call of this method. Returns `None` if there was no
    /// restart, or if that interface was taken down afterwards.
    pub fn take_restarted(&mut self) -> Option<Iface> {
        self.restarted.take()
    }

    /// Returns the interface that was taken down most recently since the last call of this method. Returns `None` if no interface
    /// was taken down, or if that interface was restarted afterwards.
    pub fn take_downed(&mut self) -> Option<Iface> {
        self.downed.take()
    }
}

/// Stores the interface of a call in `noted`, if the call has an interface. Clears `opposite` if it stores the same interface.
fn note(noted: &mut Option<Iface>, opposite: &mut Option<Iface>, iface: Option<Iface>) {
    if iface.is_some() {
        *noted = iface;
        if *opposite == iface {
            *opposite = None;
        }
    }
}
