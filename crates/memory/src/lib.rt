// The lent memory: a header, the store, and N slots. The crate's specs have the layout (Layout),
// what a memory means (Image), its rules (Rules) and what functions ask and promise (Promises).
// Internal layer: what a function requires is its callers' to show. The sizes of a memory are read
// from its header where they are needed; a loop over all slots reads them once and hands them down.
// Kept: `mem` and `i` stay apart, as a value of both would be made anew after each change.
#![tactic(auto)]

mod check;
mod entries;
mod header;
mod parts;
mod patterns;
mod queues;
mod recordings;
mod setting;
mod slots;

pub use check::{is_fine, is_fine_indexing};
pub use entries::{delete_at, write_at};
pub use header::{Sizes, in_range, read_sizes, size, slot_count};
pub use parts::{recording_part, store_part, subscriptions_part};
pub use patterns::{add_pattern, remove_pattern};
pub use queues::{error_fits, first_length, has_message, notify, owe, refuse, settle, slip, take};
pub use recordings::{begin, end_recording, in_transaction, is_spoiled, record, record_fits};
pub use setting::set_up;
pub use slots::{close, fix_kind, hangs_up, is_free, is_shut, kind, open};
