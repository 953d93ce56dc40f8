ghost use Rattle.std.specs.Prelude.{◌≡◌, [], IfOk};
ghost use Rattle.can_meter.specs.Readings.{readings};

use crate::blank::{MeterBlank, MeterName};
use crate::gauge::Gauge;
use crate::keeper::Keeper;
use crate::rule::Opens;
use std::alloc::{AllocError, Global};
use std::marker::PhantomData;
use std::sync::Arc;

/// Makes the keeper and the first gauge of a meter from a blank. Neither of them has any publications. `N` gives the blank this
/// number. Returns `AllocError` if an allocation fails.
pub fn meter<N: MeterName>(
    alloc: Global,
    blank: MeterBlank,
    number: u8,
) -> Result<(Keeper<N>, Gauge<N>), AllocError>
    requires { blank ≡ N.meter number }
    ensures keeper { IfOk result (λ sides. sides.0 ≡ readings number blank.words []) }
    ensures gauge { IfOk result (λ sides. sides.1 ≡ readings number blank.words []) }
{
    let MeterBlank { table, mut seat } = blank;
    let gauge_seat = table.shared.split_seat::<Opens>(&mut seat);
    let table = Arc::new(alloc, table)?;
    let gauge_table = Arc::try_clone(&table)?;
    let keeper = Keeper {
        table,
        seat,
        number,
        name: PhantomData,
    };
    let gauge = Gauge {
        table: gauge_table,
        seat: gauge_seat,
        number,
        name: PhantomData,
    };
    Ok((keeper, gauge))
}
