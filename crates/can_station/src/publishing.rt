ghost use Rattle.std.specs.Prelude.{◌≡◌, ◌≢◌, ◌<◌, ◌≤◌, ℕ, true, false};
ghost use Rattle.can_meter.specs.Publications.{published, newest};
ghost use Rattle.can_event.specs.Replies.{enters};
ghost use Rattle.can_station.specs.Published.{AllEarlier, Publishes, PublishesOf, counts_before};

use can_bus::{Event, Journaled, Reply};
use can_confine::Counters;
use can_meter::{Keeper, MeterName};

/// Returns the error counters of a bus before an event, if the event can change them: an attempt, a restart, or taking an interface
/// down.
pub(crate) fn counters_before<B: Journaled>(bus: &B, event: &Event) -> Option<[Counters; 16]>
    ensures { result ≡ counts_before (B.journal bus.now) event.now }
{
    match event {
        Event::Attempt(_, _) | Event::Restart(_, _) | Event::Down(_, _) => Some(bus.counters()),
        _ => None,
    }
}

/// Publishes the counters that a call changed, if the call added an entry to the record. Each publication includes the length of
/// the record, counting that entry.
pub(crate) fn publish_changes<N: MeterName>(
    keeper: &mut Keeper<N>,
    reply: &Reply,
    at: u32,
    before: &[Counters; 16],
    after: &[Counters; 16],
)
    requires few { keeper.old.ifaces ≤ 16 }
    requires later { enters reply.now ≡ true → AllEarlier keeper.old at }
    ensures number { keeper.new.number ≡ keeper.old.number }
    ensures ifaces { keeper.new.ifaces ≡ keeper.old.ifaces }
    ensures entered { enters reply.now ≡ true →
        Publishes keeper.old before.now after.now at keeper.new }
    ensures still { enters reply.now ≡ false → keeper.new ≡ keeper.old }
{
    if reply.enters() {
        publish_all(keeper, at, before, after);
    }
}

/// Publishes the counters of each interface whose counters changed.
fn publish_all<N: MeterName>(
    keeper: &mut Keeper<N>,
    at: u32,
    before: &[Counters; 16],
    after: &[Counters; 16],
)
    requires few { keeper.old.ifaces ≤ 16 }
    requires later { AllEarlier keeper.old at }
    ensures number { keeper.new.number ≡ keeper.old.number }
    ensures ifaces { keeper.new.ifaces ≡ keeper.old.ifaces }
    ensures lists { Publishes keeper.old before.now after.now at keeper.new }
{
    for place in 0..keeper.ifaces() {
        publish_change(keeper, place, at, before[place], after[place]);
    }
}

/// Publishes the counters of an interface if they changed.
fn publish_change<N: MeterName>(
    keeper: &mut Keeper<N>,
    place: usize,
    at: u32,
    before: Counters,
    after: Counters,
)
    requires there { place < keeper.old.ifaces }
    requires later { (newest (published keeper.old.lists place)).at < at }
    ensures number { keeper.new.number ≡ keeper.old.number }
    ensures ifaces { keeper.new.ifaces ≡ keeper.old.ifaces }
    ensures list { PublishesOf keeper.old place before after at keeper.new }
    ensures others { (i : ℕ) → i ≢ place →
        published keeper.new.lists i ≡ published keeper.old.lists i }
{
    if before != after {
        keeper.publish(place, at, after);
    }
}
