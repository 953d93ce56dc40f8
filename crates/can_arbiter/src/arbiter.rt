ghost use Rattle.std.specs.Prelude.{◌≡◌, ◌↔◌, ℕ, List, Option, Some, None, length, slice_set, IfSome, IsNone};
ghost use Rattle.can_arbiter.specs.Keys.{no_keys, IsIdle, IsWinner};

use can_frame::Iface;

/// A finite map from interfaces to keys, which can return the interface that wins arbitration.
pub trait Arbiter: Drop {
    /// The key of each interface, if it holds one. Place `i` has the key of interface `i`.
    ghost keys_of: { Self → List (Option ℕ) };

    /// Returns an arbiter in which no interface holds a key.
    fn new() -> Self
        ensures { keys_of result ≡ no_keys };

    /// Gives the interface this key, which replaces the key that the interface held before.
    fn set(&mut self, iface: Iface, key: u32)
        ensures { keys_of self.new ≡ slice_set (keys_of self.old) iface (Some key) };

    /// Removes the key of the interface, if it holds one.
    fn clear(&mut self, iface: Iface)
        ensures { keys_of self.new ≡ slice_set (keys_of self.old) iface None };

    /// Returns the interface with the lowest key. If several interfaces have that key, the lowest interface number wins. Returns
    /// `None` exactly if no interface holds a key.
    fn winner(&self) -> Option<Iface>
        ensures first { IfSome result (λ w. IsWinner (keys_of self.now) w) }
        ensures none { IsNone result ↔ IsIdle (keys_of self.now) };

    /// There are always 16 places, one for each interface.
    ghost places: { (arbiter : Self) → length (keys_of arbiter) ≡ 16 };
}
