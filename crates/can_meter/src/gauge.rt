ghost use Rattle.std.specs.Prelude.{◌≡◌, ◌<◌, IfOk, MatchResult};
ghost use mathlib.Core.List.{IsSuffix};
ghost use Rattle.can_meter.specs.Publications.{newest, published, longer_lists, AreEndsOf};
ghost use Rattle.can_meter.specs.Readings.{knowing, knowing_of};

use crate::blank::{MeterName, Place, Words};
use crate::rule::{Copies, Look, Return, TakesIn};
use crate::status::Status;
use crate::word::read_word;
use std::alloc::{AllocError, Global};
use std::marker::{Model, PhantomData};
use std::sync::Arc;

/// The reading side of a meter. To a contract it is the number of the meter and, for each interface, the publications that the
/// gauge has seen, newest first.
#[derive(Drop)]
pub struct Gauge<N: MeterName> {
    pub(crate) table: Arc<Words, Global>,
    pub(crate) seat: Place,
    pub(crate) number: u8,
    pub(crate) name: PhantomData<N>,
}

impl<N: MeterName> Model for Gauge<N> {
    ghost use Rattle.std.specs.Prelude.{[]};
    ghost use Rattle.std.specs.Arc.{arc_value};
    ghost use Rattle.can_meter.specs.declared.rule.View.TheVariants.{Watches};
    ghost use Rattle.can_meter.specs.Readings.{Readings, readings};
    ghost use Rattle.can_meter.specs.Rule.{seat_lists, IsSeated};

    ghost Value = { Readings };

    ghost view = { λ g. readings g.number (N.meter g.number).words (seat_lists g.seat.me.0) };

    ghost invariant = { λ g. IsSeated
        (arc_value g.table).shared.table_id (arc_value g.table).shared.key
        g.seat.table_id g.seat.me (N.meter g.number) (Watches (seat_lists g.seat.me.0) []) };
}

impl<N: MeterName> Gauge<N> {
    /// Returns the number of the gauge's meter.
    pub fn number(&self) -> u8
        ensures { result ≡ self.now.number }
    {
        self.number
    }

    /// Returns the number of interfaces of the gauge's meter.
    pub fn ifaces(&self) -> usize
        ensures { result ≡ self.now.ifaces }
    {
        self.table.word_count()
    }

    /// Returns the newest publication of an interface. Before the first publication this is 0 entries and the counters 0/0. The
    /// call is one load and waits for no thread. A newer status may be published before the call returns. A gauge never reads a
    /// publication older than one it has read before.
    pub fn status(&mut self, iface: usize) -> Status
        requires { iface < self.old.ifaces }
        ensures status { result ≡ newest (published self.new.lists iface) }
        ensures grows { IsSuffix (published self.old.lists iface) (published self.new.lists iface) }
        ensures others { self.new ≡ knowing_of self.old iface (published self.new.lists iface) }
    {
        let word = self.table.shared.load::<Look>(&mut self.seat, iface);
        read_word(word)
    }

    /// Returns two gauges that have seen the same publications as this gauge. If `another` fails, it returns this gauge instead.
    pub fn split(mut self) -> Result<(Gauge<N>, Gauge<N>), Gauge<N>>
        ensures { MatchResult result
            (λ gauges. (gauges.0 ≡ self) × (gauges.1 ≡ self)) (λ gauge. gauge ≡ self) }
    {
        match self.another() {
            Ok(other) => Ok((self, other)),
            Err(AllocError) => Err(self),
        }
    }

    /// Returns a second gauge that has seen the same publications as this gauge, which does not change. Returns `AllocError` if no
    /// more gauges can be counted; nothing is allocated.
    pub fn another(&mut self) -> Result<Gauge<N>, AllocError>
        ensures same { self.new ≡ self.old }
        ensures another { IfOk result (λ gauge. gauge ≡ self.old) }
    {
        let table = Arc::try_clone(&self.table)?;
        let seat = self.table.shared.split_seat::<Copies>(&mut self.seat);
        Ok(Gauge {
            table,
            seat,
            number: self.number,
            name: PhantomData,
        })
    }

    /// Joins two gauges of the same number into one. For each interface one gauge's list is a suffix of the other's, and the longer
    /// list is kept.
    pub fn join(mut self, other: Gauge<N>) -> Gauge<N>
        requires { other.number ≡ self.number }
        ensures longer { result ≡ knowing self (longer_lists self.lists other.lists) }
        ensures this { AreEndsOf self.lists result.lists }
        ensures that { AreEndsOf other.lists result.lists }
    {
        let Gauge {
            table: _,
            seat,
            number: _,
            name: _,
        } = other;
        self.table.shared.join_seat::<TakesIn>(&mut self.seat, seat);
        self.table.shared.load::<Return>(&mut self.seat, 0);
        self
    }
}
