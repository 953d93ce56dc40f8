ghost use Rattle.std.specs.Prelude.{◌≡◌, ◌<◌, ◌≤◌, IfOk};

use crate::rule::{Law, View};
use atomic_table::{Seat, Table};
use std::alloc::{AllocError, Global};
use std::marker::{Brand, Model};

/// The largest number of interfaces that a meter can have.
const MAX_IFACES: usize = 16;

/// The table of a meter, with one word for each interface.
pub(crate) type Words = Table<(), View, usize, Law, Global>;

/// The seat of a keeper or gauge at the table. It has no bytes.
pub(crate) type Place = Seat<(), View>;

/// Names one meter for each number. The trait is for contracts only and has no methods. The type of a keeper and of its gauges
/// names their meter, so a contract cannot confuse gauges of different meters.
pub trait MeterName {
    ghost use Rattle.std.specs.Prelude.{ℕ};
    ghost use Rattle.atomic_table.specs.Seated.{TableId};

    ghost meter: { ℕ → TableId };
}

impl MeterName for Brand {
    ghost use Rattle.can_meter.specs.Rule.{no_table};

    ghost meter = { λ _. no_table };
}

/// A meter before it has a number, with no publications. To a contract it is the identity of its table of words.
#[derive(Drop)]
pub struct MeterBlank {
    pub(crate) table: Words,
    pub(crate) seat: Place,
}

impl Model for MeterBlank {
    ghost use Rattle.std.specs.Prelude.{[]};
    ghost use Rattle.atomic_table.specs.Seated.{TableId, table_id_coded};
    ghost use Rattle.can_meter.specs.declared.rule.View.TheVariants.{Keeps};
    ghost use Rattle.can_meter.specs.Rule.{IsSeated};

    ghost Value = { TableId };

    ghost coded = { table_id_coded };

    ghost view = { λ b. b.table.shared.table_id };

    ghost invariant = { λ b. IsSeated b.table.shared.table_id b.table.shared.key
        b.seat.table_id b.seat.me b.table.shared.table_id (Keeps [] []) };
}

impl MeterBlank {
    /// Returns the number of interfaces of the meter.
    pub fn ifaces(&self) -> usize
        ensures { result ≡ self.now.words }
    {
        self.table.word_count()
    }
}

/// Makes a meter of 1 to 16 interfaces, which has no number yet. Returns `AllocError` if its words cannot be allocated.
pub fn meter_blank(alloc: Global, ifaces: usize) -> Result<MeterBlank, AllocError>
    requires { (0 < ifaces) × (ifaces ≤ 16) }
    ensures { IfOk result (λ b. b.words ≡ ifaces) }
{
    let zeros = [0; MAX_IFACES];
    let (table, seat) = Table::of_words(alloc, &zeros[..ifaces], &ifaces)?;
    Ok(MeterBlank { table, seat })
}
