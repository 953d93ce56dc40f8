//! The job of `canbusd bits`, which writes the bits of a frame.
ghost use Rattle.std.specs.Prelude.{◌≡◌, ◌⊎◌, IfErr, OnOk};
ghost use Rattle.canbusd.specs.Outcomes.{WritesBits};
ghost use Rattle.canbusd_io.specs.declared.program_error.ProgramError.TheVariants as told;

use can_bits::bits_text;
use canbusd_io::{OUTPUT, ProgramError, Report, write_failure};
use canbusd_options::BitsOptions;
use std::alloc::Global;
use std::io::Write;

/// Writes the bits of a frame. For each other frame in the options, it also writes the bit at which the sender of that frame stops
/// sending.
pub fn write_bits<'a, W: Write>(
    alloc: Global,
    options: &BitsOptions,
    output: &mut W,
) -> Result<(), Report<'a>>
    ensures written { OnOk result (WritesBits options.now W.contents output.old output.new) }
    ensures fault { IfErr result (λ failure.
        (failure.error ≡ told.NoMemory) ⊎ (failure.error ≡ told.Write)) }
{
    let Ok(text) = bits_text(alloc, &options.frame, &options.others, options.timing) else {
        return Err(Report::new(alloc, ProgramError::NoMemory));
    };
    output
        .write_all(&text)
        .map_err(|error| write_failure(alloc, OUTPUT, &error))
}
