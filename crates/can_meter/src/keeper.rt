ghost use Rattle.std.specs.Prelude.{◌≡◌, ◌<◌};
ghost use Rattle.can_meter.specs.Publications.{newest, published, AreEndsOf};
ghost use Rattle.can_meter.specs.Readings.{after_publishing};

use crate::blank::{MeterName, Place, Words};
use crate::gauge::Gauge;
use crate::rule::{Publish, Return, TakesIn};
use crate::status::Status;
use crate::word::word;
use can_confine::Counters;
use std::alloc::Global;
use std::marker::{Model, PhantomData};
use std::sync::Arc;

/// The publishing side of a meter. There is only one keeper. To a contract it is the number of the meter and, for each interface,
/// all publications, newest first.
#[derive(Drop)]
pub struct Keeper<N: MeterName> {
    pub(crate) table: Arc<Words, Global>,
    pub(crate) seat: Place,
    pub(crate) number: u8,
    pub(crate) name: PhantomData<N>,
}

impl<N: MeterName> Model for Keeper<N> {
    ghost use Rattle.std.specs.Prelude.{[]};
    ghost use Rattle.std.specs.Arc.{arc_value};
    ghost use Rattle.can_meter.specs.declared.rule.View.TheVariants.{Keeps};
    ghost use Rattle.can_meter.specs.Readings.{Readings, readings};
    ghost use Rattle.can_meter.specs.Rule.{seat_lists, IsSeated};

    ghost Value = { Readings };

    ghost view = { λ k. readings k.number (N.meter k.number).words (seat_lists k.seat.me.0) };

    ghost invariant = { λ k. IsSeated
        (arc_value k.table).shared.table_id (arc_value k.table).shared.key
        k.seat.table_id k.seat.me (N.meter k.number) (Keeps (seat_lists k.seat.me.0) []) };
}

impl<N: MeterName> Keeper<N> {
    /// Returns the number of the keeper's meter.
    pub fn number(&self) -> u8
        ensures { result ≡ self.now.number }
    {
        self.number
    }

    /// Returns the number of interfaces of the keeper's meter.
    pub fn ifaces(&self) -> usize
        ensures { result ≡ self.now.ifaces }
    {
        self.table.word_count()
    }

    /// Publishes the counters of an interface together with the length of the record. The length has to be greater than the last
    /// one published for this interface. The call is one store and waits for no thread.
    pub fn publish(&mut self, iface: usize, at: u32, counters: Counters)
        requires iface { iface < self.old.ifaces }
        requires later { (newest (published self.old.lists iface)).at < at }
        ensures { self.new
            ≡ after_publishing self.old iface (record { at = at; counters = counters }) }
    {
        let word = word(Status { at, counters });
        self.table
            .shared
            .store::<Publish>(&mut self.seat, iface, word);
    }

    /// Takes back a gauge of the same number. Everything that the gauge has seen was published by this keeper.
    pub fn absorb(&mut self, gauge: Gauge<N>)
        requires { gauge.number ≡ self.old.number }
        ensures same { self.new ≡ self.old }
        ensures seen { AreEndsOf gauge.lists self.old.lists }
    {
        let Gauge {
            table: _,
            seat,
            number: _,
            name: _,
        } = gauge;
        self.table.shared.join_seat::<TakesIn>(&mut self.seat, seat);
        self.table.shared.load::<Return>(&mut self.seat, 0);
    }
}
