//! A roll records which pass made which calls. It is a ledger for proofs only.
//!
//! Many callers share one bus under a lock. Each caller has a pass and keeps the list of the calls that it made. The lock keeps the
//! same list for each pass. Between two calls of one caller, other callers use the lock, and nothing in the code says that the two
//! lists are still equal. A roll makes their equality a proved fact, without a list in memory and without a comparison.
//!
//! A [`Roll`] is under the lock, and each pass has a [`Slip`] of the roll. To contracts the roll is one list of calls for each
//! pass, and the slip is the list of its own pass (`specs/Seen.antt`). [`Roll::enter`] hands out a slip, [`Roll::note`] puts one
//! call in front of both lists, and [`Roll::recall`] takes a slip back for good. `note` and `recall` show the caller that the
//! slip's list is the roll's list of the same pass.
//!
//! A roll also has a scroll, for entries that are handed out in blocks. [`HandedOut`] is under the lock, and the thread that takes
//! the blocks has the [`Scroll`]. A scroll is a roll of one pass, whose calls are the entries.
//!
//! At run time a roll is two numbers and one atomic word that is always 0, and a slip is two numbers. What they know is in the
//! views of an `atomic_table`. The table's rule ties the views together: different slips of one roll have different passes, and
//! each slip's list is the roll's list of that pass (`specs/Rule.antt`). Each step may rely on the rule and has to keep it. The
//! word has no other purpose: `note` and `recall` load it to get the facts of the rule. Each call takes at most four loads.
#![tactic(auto)]

mod roll;
mod roll_name;
mod rule;
mod scroll;
mod slip;

pub use roll::{Roll, RollBlank, roll_blank};
pub use roll_name::RollName;
pub use scroll::{HandedOut, Scroll, roll_with_scroll};
pub use slip::Slip;
