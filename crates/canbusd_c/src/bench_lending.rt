ghost use Rattle.std.specs.Prelude.{◌≡◌};
ghost use types.Logic.{sem};
ghost use Rattle.canbusd_c.specs.Handles.{bench_handle_follows};

use crate::bench_handle::BenchHandle;
use crate::local_bench::LocalBench;
use crate::parts::Parts;
use std::alloc::Global;

impl BenchHandle {
    /// Lends the bench.
    pub(crate) fn lend(&mut self) -> &mut LocalBench
        ensures* writes_back { sem 𝓛 (bench_handle_follows self.entry result) }
        ensures value { result.now ≡ self.old.value }
    {
        unsafe { &mut *self.at.cast::<LocalBench>() }
    }

    /// Returns the box of this handle, so that the caller can drop the box.
    pub(crate) fn into_parts(self, alloc: Global) -> Parts<LocalBench, Global>
        ensures { result.value ≡ self.value }
    {
        let BenchHandle { at } = self;
        Parts {
            ptr: at.cast::<LocalBench>(),
            alloc,
        }
    }
}
