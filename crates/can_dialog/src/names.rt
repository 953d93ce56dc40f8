//! The reply that lists the names of the interfaces.
ghost use Rattle.std.specs.Prelude.{◌≡◌, ◌<◌, ◌++◌, ◌∷◌, [], length, slice_index_or, OnOk};
ghost use Rattle.can_proto.specs.Spelling.{spaced};

use can_frame::{Iface, Names};
use std::alloc::AllocError;

/// Appends each of the names, after a space. Returns `AllocError` if an allocation fails.
pub fn put_names(text: &mut Vec<u8>, names: &Names) -> Result<(), AllocError>
    ensures { OnOk result (text.new.items ≡ text.old.items ++ spaced names.now) }
{
    for number in 0..names.count() {
        put_name(text, names, number)?;
    }
    Ok(())
}

/// Appends a space and the name of one interface.
fn put_name(text: &mut Vec<u8>, names: &Names, number: u8) -> Result<(), AllocError>
    requires { number < length names.now }
    ensures { OnOk result
        (text.new.items ≡ text.old.items ++ 32 ∷ slice_index_or names.now number []) }
{
    // This call shows the proof that there are at most 16 names.
    let _ = names.count();
    let Some(iface) = Iface::new(number) else {
        unreachable!()
    };
    let Some(name) = names.name(iface) else {
        unreachable!()
    };
    text.push(b' ')?;
    text.extend_from_slice(name.as_bytes())
}
