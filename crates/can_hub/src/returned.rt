ghost use Rattle.std.specs.Prelude.{◌≡◌, ◌≢◌, ◌<◌, ◌≤◌, ℕ, IfOk, IfSome, length, slice_get, take};
ghost use Rattle.can_hub.specs.Returning.{AddsOwn, AllEmpty, RemovesOwn};

use can_station::{BusName, Pass};
use std::alloc::{AllocError, Global};
use std::marker::Model;

/// The largest number of buses that a hub can have.
const MOST_BUSES: usize = 16;

/// The passes that sessions and drivers handed back, in a separate list for each bus. In contracts, this value is these lists.
#[derive(Drop)]
pub struct ReturnedPasses<N: BusName> {
    lists: Vec<Vec<Pass<N>>>,
}

impl<N: BusName> Model for ReturnedPasses<N> {
    ghost use Rattle.std.specs.Prelude.{◌≡◌, List, Vec, length};
    ghost use Rattle.std.specs.declared.alloc.Global.{Global};
    ghost use Rattle.can_station.specs.Passes.{PassSeen};

    ghost Value = { List (Vec PassSeen Global) };

    ghost view = { λ r. r.lists.items };

    ghost invariant = { λ r. length r.lists.items ≡ 16 };
}

impl<N: BusName> ReturnedPasses<N> {
    /// Returns empty lists. Each of the first `buses` lists has room for `room` passes.
    pub fn new(alloc: Global, buses: usize, room: usize) -> Result<ReturnedPasses<N>, AllocError>
        ensures { IfOk result (λ returned. AllEmpty returned) }
    {
        let mut lists = Vec::with_capacity(alloc, MOST_BUSES)?;
        for bus in 0..MOST_BUSES {
            let room = if bus < buses { room } else { 0 };
            lists.push(Vec::with_capacity(alloc, room)?)?;
        }
        Ok(ReturnedPasses { lists })
    }

    /// Puts a pass into the list of its bus. If that list is full, the pass is lost. The other lists do not change.
    pub fn take(&mut self, pass: Pass<N>)
        ensures own { pass.number < 16 → AddsOwn self.old pass self.new }
        ensures others { (bus : ℕ) → bus ≢ pass.number →
            slice_get self.new bus ≡ slice_get self.old bus }
    {
        if let Some(list) = self.lists.get_mut(usize::from(pass.number())) {
            let _ = list.push(pass);
        }
    }

    /// Removes the last pass from the list of a bus and returns it, or returns `None` if the list is empty. The other lists do not
    /// change.
    pub fn give_out(&mut self, bus: u8) -> Option<Pass<N>>
        ensures own { IfSome result (λ pass. pass.number ≡ bus) }
        ensures list { RemovesOwn self.old bus result self.new }
        ensures others { (other : ℕ) → other ≢ bus →
            slice_get self.new other ≡ slice_get self.old other }
    {
        let list = self.lists.get_mut(usize::from(bus))?;
        match list.last() {
            Some(pass) if pass.number() == bus => list.pop(),
            _ => None,
        }
    }

    /// Returns the lists of the first `buses` buses.
    pub fn into_lists(self, buses: usize) -> Vec<Vec<Pass<N>>>
        requires { buses ≤ 16 }
        ensures lists { result.items ≡ take buses self }
        ensures each { length result.items ≡ buses }
    {
        let mut lists = self.lists;
        lists.truncate(buses);
        lists
    }
}
