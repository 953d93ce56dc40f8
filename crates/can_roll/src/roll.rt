ghost use Rattle.std.specs.Prelude.{◌≡◌, ◌<◌, [], ◌∷◌, length, reverse};
ghost use Rattle.can_event.specs.Replies.{entry_of};
ghost use Rattle.can_roll.specs.Lists.{row, last_pass, without_last, NotIn};
ghost use Rattle.can_roll.specs.Rule.{slip_view};
ghost use Rattle.can_roll.specs.Seen.{roll_seen, slip_seen, slip_with_call, slip_with_calls, with_call, with_calls, with_called_in, roll_with_pass};

use crate::roll_name::RollName;
use crate::rule::{CallsIn, Enters, Law, Note, Return, Says, Sends, View};
use crate::slip::Slip;
use atomic_table::{Badge, Seat, Table};
use can_event::{Event, Reply};
use can_record::PackedRecord;
use std::alloc::{AllocError, Global};
use std::marker::{Brand, Model, PhantomData};
use std::mem;

/// The table of a roll. It has one word and no slots.
type Word = Table<(), View, (), Law, Global>;

/// The tables for a roll and its scroll, before the roll has a number. To a contract this is the identities of the two tables,
/// which a [`RollName`] can name.
#[derive(Drop)]
pub struct RollBlank {
    pub(crate) passes: WordBlank,
    pub(crate) scroll: WordBlank,
}

impl Model for RollBlank {
    ghost use Rattle.std.specs.Coded.{codes};
    ghost use Rattle.atomic_table.specs.Seated.{table_id_coded};
    ghost use Rattle.can_roll.specs.Rule.{RollId};

    ghost Value = { RollId };

    ghost coded = { Prim.hlevel (codes, table_id_coded) };

    ghost view = { λ b. record { passes = b.passes; scroll = b.scroll } };
}

/// A table without a slip, before it has a number. To a contract this is the identity of the table.
#[derive(Drop)]
pub(crate) struct WordBlank {
    table: Word,
    seat: Seat<(), View>,
}

impl Model for WordBlank {
    ghost use Rattle.std.specs.Prelude.{◌≡◌, []};
    ghost use Rattle.atomic_table.specs.Seated.{TableId, table_id_coded};
    ghost use Rattle.can_roll.specs.declared.rule.View.TheVariants.{OfRoll};

    ghost Value = { TableId };

    ghost coded = { table_id_coded };

    ghost view = { λ b. b.table.shared.table_id };

    ghost invariant = { λ b. (b.seat.table_id ≡ b.table.shared.table_id)
        × (b.seat.me ≡ (OfRoll [] [] [], [])) × (b.table.shared.table_id.words ≡ 1) };
}

/// The calls of each pass. To a contract a roll is its number, one list of calls for each pass (newest first), and the passes
/// called in, in the order of the calls to `recall`.
#[derive(Drop)]
pub struct Roll<N: RollName> {
    table: Word,
    seat: Seat<(), View>,
    number: u8,
    passes: u32,
    name: PhantomData<N>,
}

impl<N: RollName> Model for Roll<N> {
    ghost use Rattle.can_roll.specs.Rule.{lists_of, called_of, IsAtTable, IsRollSeat};
    ghost use Rattle.can_roll.specs.Seen.{RollSeen};

    ghost Value = { RollSeen };

    ghost view = { λ r. record {
      number = r.number;
      lists = lists_of r.seat.me.0;
      called = called_of r.seat.me.0;
    } };

    ghost invariant = { λ r.
        IsAtTable (N.roll r.number).passes r.table.shared.table_id r.seat.table_id
        × IsRollSeat r.seat.me r.passes };
}

/// Makes the tables of a roll without passes and of its scroll, for [`Roll::new`] or [`roll_with_scroll`](crate::roll_with_scroll).
/// Fails only if an allocation fails.
pub fn roll_blank(alloc: Global) -> Result<RollBlank, AllocError> {
    Ok(RollBlank {
        passes: word_blank(alloc)?,
        scroll: word_blank(alloc)?,
    })
}

#[tactic(auto, using(crate::proofs::Steps::begins))]
fn word_blank(alloc: Global) -> Result<WordBlank, AllocError> {
    let (table, seat) = Table::of_words(alloc, &[0], &())?;
    Ok(WordBlank { table, seat })
}

impl<N: RollName> Roll<N> {
    /// Turns the blank into the roll with this number, without passes. The blank's scroll is dropped. The caller shows that `N`
    /// gives the blank this number.
    pub fn new(blank: RollBlank, number: u8) -> Roll<N>
        requires { blank ≡ N.roll number }
        ensures { result ≡ roll_seen number [] [] }
    {
        let RollBlank { passes, scroll: _ } = blank;
        Roll::of(passes, number)
    }

    /// Turns one of the two blank tables into the roll with this number.
    pub(crate) fn of(blank: WordBlank, number: u8) -> Roll<N>
        requires { blank ≡ (N.roll number).passes }
        ensures { result ≡ roll_seen number [] [] }
    {
        let WordBlank { table, seat } = blank;
        Roll {
            table,
            seat,
            number,
            passes: 0,
            name: PhantomData,
        }
    }

    /// Returns the number of the roll.
    pub fn number(&self) -> u8
        ensures { result ≡ self.now.number }
    {
        self.number
    }

    /// Returns how many passes have entered.
    pub fn passes(&self) -> u32
        ensures { result ≡ length self.now.lists }
    {
        self.passes
    }

    /// Hands out the slip of the next pass, with no calls. Passes are numbered from 0. The caller shows that fewer than 4,096
    /// passes have entered.
    pub fn enter(&mut self) -> Slip<N>
        requires { length self.old.lists < 4096 }
        ensures roll { self.new ≡ roll_with_pass self.old }
        ensures slip { result ≡ slip_seen self.old.number (length self.old.lists) [] }
    {
        let table = &self.table;
        let seat = table.shared.split_seat::<Enters>(&mut self.seat);
        let pass = self.passes;
        self.passes += 1;
        Slip {
            badge: seat.into_badge(),
            number: self.number,
            pass,
            name: PhantomData,
        }
    }

    /// Notes a call with its reply. The call is put in front of the slip's list and of the roll's list of that pass. The two lists
    /// are equal before and after. The caller shows that the slip has this roll's number.
    pub fn note(&mut self, slip: &mut Slip<N>, event: &Event, reply: &Reply)
        requires { slip.old.number ≡ self.old.number }
        ensures roll { self.new ≡ with_call slip.old.pass (entry_of event.now reply.now) self.old }
        ensures slip { slip.new ≡ slip_with_call (entry_of event.now reply.now) slip.old }
        ensures below { slip.old.pass < length self.old.lists }
        ensures before { row self.old.lists slip.old.pass ≡ slip.old.calls }
        ensures after { row self.new.lists slip.old.pass ≡ slip.new.calls }
    {
        let taken: Slip<N> = Slip {
            badge: mem::replace(&mut slip.badge, Badge::blank()),
            number: slip.number,
            pass: slip.pass,
            name: PhantomData,
        };
        self.recall(taken);
        self.note_last::<Brand>(event, reply);
        slip.badge = self.send_last();
    }

    /// Notes several calls with their replies, oldest first, in the same way as `note`.
    pub(crate) fn note_all(&mut self, slip: &mut Slip<N>, calls: &PackedRecord)
        requires { slip.old.number ≡ self.old.number }
        ensures roll { self.new ≡ with_calls slip.old.pass (reverse calls.now.entries) self.old }
        ensures slip { slip.new ≡ slip_with_calls (reverse calls.now.entries) slip.old }
        ensures below { slip.old.pass < length self.old.lists }
        ensures before { row self.old.lists slip.old.pass ≡ slip.old.calls }
    {
        let taken: Slip<N> = Slip {
            badge: mem::replace(&mut slip.badge, Badge::blank()),
            number: slip.number,
            pass: slip.pass,
            name: PhantomData,
        };
        self.recall(taken);
        self.note_all_last::<Brand>(calls);
        slip.badge = self.send_last();
    }

    /// Takes a slip back for good: its pass is called in. The slip's calls are the roll's list of that pass, and the pass was not
    /// called in before. The caller shows that the slip has this roll's number.
    pub fn recall(&mut self, slip: Slip<N>)
        requires { slip.number ≡ self.old.number }
        ensures roll { self.new ≡ with_called_in slip.pass self.old }
        ensures calls { row self.old.lists slip.pass ≡ slip.calls }
        ensures once { NotIn slip.pass self.old.called }
        ensures below { slip.pass < length self.old.lists }
    {
        let Slip {
            badge,
            number: _,
            pass: _,
            name: _,
        } = slip;
        let table = &self.table;
        table
            .shared
            .join_seat::<CallsIn>(&mut self.seat, badge.into_seat());
        table.shared.load::<Return>(&mut self.seat, 0);
    }

    // Notes a call of the pass that was called in most recently.
    fn note_last<C: Says>(&mut self, event: &Event, reply: &Reply)
        requires said { C.said ≡ entry_of event.now reply.now ∷ [] }
        requires some_in { 0 < length self.old.called }
        ensures { self.new
            ≡ with_call (last_pass self.old.called) (entry_of event.now reply.now) self.old }
    {
        let table = &self.table;
        table.shared.load::<Note<C>>(&mut self.seat, 0);
    }

    // Notes several calls of the pass that was called in most recently.
    fn note_all_last<C: Says>(&mut self, calls: &PackedRecord)
        requires said { C.said ≡ reverse calls.now.entries }
        requires some_in { 0 < length self.old.called }
        ensures { self.new
            ≡ with_calls (last_pass self.old.called) (reverse calls.now.entries) self.old }
    {
        let table = &self.table;
        table.shared.load::<Note<C>>(&mut self.seat, 0);
    }

    // Sends the pass that was called in most recently out again, and returns the badge for its slip.
    fn send_last(&mut self) -> Badge<View>
        requires { 0 < length self.old.called }
        ensures roll { self.new
            ≡ roll_seen self.old.number self.old.lists (without_last self.old.called) }
        ensures table { result.table_id ≡ (N.roll self.old.number).passes }
        ensures views { result.views ≡ slip_view self.old.lists (last_pass self.old.called) ∷ [] }
    {
        let table = &self.table;
        table
            .shared
            .split_seat::<Sends>(&mut self.seat)
            .into_badge()
    }
}
