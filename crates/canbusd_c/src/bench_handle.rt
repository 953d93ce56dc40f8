//! A bench that is owned by a C program. Nothing checks that a pointer from C was returned by `canbusd_c_bench_new` and was not
//! freed, or that only one thread uses it at a time.
ghost use Rattle.canbusd_c.specs.Benching.{KeptBench};
ghost use Rattle.canbusd_c.specs.contracts.local_bench.LocalBench.{the_row};

use std::marker::Model;

/// A handle for a bench in C: a pointer to the box that contains the bench.
#[repr(C)]
#[derive(Drop)]
pub struct BenchHandle {
    pub(crate) at: *mut u8,
    pub ghost value: { KeptBench } by { the_row.coded },
}

impl Model for BenchHandle {
    ghost use Rattle.std_alloc.specs.Box.Ownership.{box_owns};
    ghost use Rattle.libc.specs.Heap.{chunk};
    ghost use Rattle.canbusd_c.specs.contracts.local_bench.LocalBench.{the_row};

    ghost also_owns = { λ h. box_owns chunk the_row h.at h.value };
}
