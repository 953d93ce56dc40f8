ghost use Rattle.std.specs.Prelude.{◌≡◌, ◌++◌, []};

use can_bus::PackedRecord;
use std::marker::Model;
use std::mem::{self, size_of};
use std::snapshot::Snapshot;

const _: () = prove!(size_of::<Given>() == 0);

// The entries, as contracts see them. No value of this type exists at run time.
#[derive(Drop)]
enum Chain {
    Empty,
    Block(Snapshot<Chain>, Snapshot<PackedRecord>),
}

/// The entries given to a keeper, the oldest first. Only contracts see the entries. The type takes no memory, and its methods do
/// nothing.
#[derive(Drop)]
pub struct Given {
    chain: Snapshot<Chain>,
}

impl Model for Given {
    ghost use Rattle.std.specs.Prelude.{List};
    ghost use Rattle.can_event.specs.declared.entry.Entry.{Entry};
    ghost use Rattle.can_server.specs.Givens.{entries_of_chain};

    ghost Value = { List Entry };

    ghost view = { λ g. entries_of_chain g.chain.value };
}

impl Given {
    /// Returns an empty list of entries.
    pub fn new() -> Given
        ensures { result ≡ [] }
    {
        Given {
            chain: Snapshot::of(&Chain::Empty),
        }
    }

    /// Records that the keeper was given this block.
    pub fn note(&mut self, block: &PackedRecord)
        ensures { self.new ≡ self.old ++ block.now.entries }
    {
        let before = mem::replace(&mut self.chain, Snapshot::of(&Chain::Empty));
        let chain = Chain::Block(before, Snapshot::of(block));
        self.chain = Snapshot::of(&chain);
    }
}
