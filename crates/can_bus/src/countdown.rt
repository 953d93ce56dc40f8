ghost use Rattle.std.specs.Prelude.{◌≡◌, ◌==◌, not, replicate, slice_set};
ghost use Rattle.std.specs.List.{list_any};
ghost use Rattle.can_bus.specs.Changes.{counting_down, due_in, ticked};

use can_frame::{Iface, IfaceSet};
use std::marker::Model;

/// For each interface, the number of attempts until its automatic restart; 0 if no restart is pending.
#[derive(Drop)]
pub struct Countdown {
    left: [u32; 16],
}

impl Model for Countdown {
    ghost use Rattle.std.specs.Prelude.{ℕ, List};

    ghost Value = { List ℕ };

    ghost view = { λ c. c.left };
}

impl Countdown {
    /// Returns a countdown without pending restarts.
    pub fn new() -> Countdown
        ensures { result ≡ replicate 16 0 }
    {
        Countdown { left: [0; 16] }
    }

    /// Starts the countdown of an interface that went bus off. It restarts after this many
    /// attempts, or never for 0.
    pub fn start(&mut self, iface: Iface, attempts: u32, is_off: bool)
        ensures { self.new ≡ counting_down attempts iface is_off self.old }
    {
        if is_off {
            self.left[iface.number() as usize] = attempts;
        }
    }

    /// Cancels the pending restart of an interface.
    pub fn stop(&mut self, iface: Iface)
        ensures { self.new ≡ slice_set self.old iface 0 }
    {
        self.left[iface.number() as usize] = 0;
    }

    /// Returns whether an automatic restart is pending for any interface.
    pub fn is_running(&self) -> bool
        ensures { result ≡ list_any (λ n. not (n == 0)) self.now }
    {
        self.left.iter().any(|left| *left != 0)
    }

    /// Returns the interfaces that the next attempt restarts.
    fn due(&self) -> IfaceSet
        ensures { result ≡ due_in self.now }
    {
        let mut due = IfaceSet::empty();
        for place in 0..16u8 {
            if self.left[place as usize] == 1 {
                due = due.with(Iface::new(place).unwrap());
            }
        }
        due
    }

    /// Counts one attempt for each interface with a pending restart.
    fn tick(&mut self)
        ensures { self.new ≡ ticked self.old }
    {
        for left in self.left.iter_mut() {
            *left = left.saturating_sub(1);
        }
    }

    /// Counts an attempt, and returns the interfaces that it restarts. If the bus restarts no
    /// interface (`attempts` is 0), it does nothing.
    pub fn count(&mut self, attempts: u32) -> IfaceSet
        requires { attempts ≡ 0 → self.old ≡ replicate 16 0 }
        ensures due { result ≡ due_in self.old }
        ensures rest { self.new ≡ ticked self.old }
    {
        if attempts == 0 {
            return IfaceSet::empty();
        }
        let due = self.due();
        self.tick();
        due
    }
}
