ghost use Rattle.std.specs.Prelude.{◌≡◌, ◌++◌, OnOk};
ghost use Rattle.std.specs.Fmt.{decimal};

use can_frame::Text;
use std::alloc::AllocError;

/// Appends a number in decimal.
#[inline(always)]
pub fn put_number(said: &mut Vec<u8>, number: u64) -> Result<(), AllocError>
    ensures { OnOk result (said.new.items ≡ said.old.items ++ decimal number) }
{
    if number < 10 {
        said.push(b'0' + number as u8)?;
        return Ok(());
    }
    put_digits(said, number)
}

// Appends a number in decimal through a separate string of its digits.
#[inline(never)]
fn put_digits(said: &mut Vec<u8>, number: u64) -> Result<(), AllocError>
    ensures { OnOk result (said.new.items ≡ said.old.items ++ decimal number) }
{
    let mut digits: Text<20> = Text::new();
    digits.push_count(number);
    said.extend_from_slice(digits.as_bytes())
}
