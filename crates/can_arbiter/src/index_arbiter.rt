ghost use Rattle.std.specs.Prelude.{◌≡◌, ◌<◌, ◌*◌, ◌+◌, ◌%◌, List, Option, None, length, slice_index, IfSome, IsNone};
ghost use Rattle.std.specs.List.{AllPairs, remove};
ghost use Rattle.std.specs.List.Sorted.{IsNonDecreasing};
ghost use Rattle.can_arbiter.specs.Ranks.{GoesBefore, IsPutAmong, key_in, keys_in, length-keys_in};

use crate::arbiter::Arbiter;
use arrayvec::ArrayVec;
use can_frame::Iface;

/// An arbiter that stores the interfaces that hold a key in a row, sorted by rank. The winner is at the front of the row, so no
/// search is needed, and `set` and `clear` move at most 15 entries. If an interface already has a rank in the row, its new rank is
/// moved from that place.
#[derive(Debug, Drop)]
pub struct IndexArbiter {
    // The ranks of the interfaces that hold a key, in ascending order.
    row: ArrayVec<u64, 16>,
    ghost in_order: { AllPairs GoesBefore row.items },
}

/// Returns a key and its interface as one number. The lower number wins.
fn rank(iface: Iface, key: u32) -> u64
    ensures { result ≡ key * 16 + iface }
{
    u64::from(key) * 16 + u64::from(iface.number())
}

/// Returns the place of the interface's rank in a row, or `None` if the row has none.
fn place_of(row: &[u64], iface: Iface) -> Option<usize>
    ensures some { IfSome result (λ place. (place < length row.now)
        × (slice_index row.now place % 16 ≡ iface)) }
    ensures none { IsNone result → key_in row.now iface ≡ None }
{
    let number = u64::from(iface.number());
    for place in 0..row.len() {
        if row[place] % 16 == number {
            return Some(place);
        }
    }
    None
}

/// Overwrites the rank at this place with a new one and moves it to its sorted position. The other ranks are already sorted.
fn put_over(row: &mut [u64], place: usize, rank: u64)
    requires within { place < length row.old }
    requires in_order { IsNonDecreasing (remove row.old place) }
    ensures { IsPutAmong (remove row.old place) rank row.new }
{
    let mut at = place;
    row[at] = rank;
    while 0 < at && rank <= row[at - 1] {
        row[at] = row[at - 1];
        row[at - 1] = rank;
        at -= 1;
    }
    while at + 1 < row.len() && row[at + 1] < rank {
        row[at] = row[at + 1];
        row[at + 1] = rank;
        at += 1;
    }
}

impl Arbiter for IndexArbiter {
    ghost keys_of = { λ arbiter. keys_in arbiter.row.items };

    fn new() -> Self {
        IndexArbiter {
            row: ArrayVec::new(),
        }
    }

    fn set(&mut self, iface: Iface, key: u32) {
        let rank = rank(iface, key);
        match place_of(&self.row, iface) {
            Some(place) => put_over(&mut self.row, place, rank),
            None => {
                let place = self.row.partition_point(|other| *other < rank);
                self.row.insert(place, rank);
            }
        }
    }

    fn clear(&mut self, iface: Iface) {
        let number = u64::from(iface.number());
        self.row.retain(|rank| *rank % 16 != number);
    }

    fn winner(&self) -> Option<Iface> {
        let first = self.row.first()?;
        Iface::new((*first % 16) as u8)
    }

    ghost places = { λ arbiter. length-keys_in arbiter.row.items };
}
