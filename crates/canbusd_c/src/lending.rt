ghost use Rattle.std.specs.Prelude.{◌≡◌};
ghost use types.Logic.{sem};
ghost use Rattle.canbusd_c.specs.Handles.{handle_follows};

use crate::handle::Handle;
use crate::local_bus::LocalBus;
use crate::parts::Parts;
use std::alloc::Global;

impl Handle {
    /// Lends the bus.
    pub(crate) fn lend(&mut self) -> &mut LocalBus
        ensures* writes_back { sem 𝓛 (handle_follows self.entry result) }
        ensures value { result.now ≡ self.old.value }
    {
        unsafe { &mut *self.at.cast::<LocalBus>() }
    }

    /// Returns the box of this handle, so that the caller can drop the box.
    pub(crate) fn into_parts(self, alloc: Global) -> Parts<LocalBus, Global>
        ensures { result.value ≡ self.value }
    {
        let Handle { at } = self;
        Parts {
            ptr: at.cast::<LocalBus>(),
            alloc,
        }
    }
}
