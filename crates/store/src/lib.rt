// The store region of the broker's memory: a head (used bytes, number of entries) and packed rows,
// one for each entry, in ascending order of keys. `is_fine` and `clear` take a region that need not
// hold a store; `row_size`, `key_at` and `body_at` ask for a row at their offset, `move_index` for
// numbers that can be added, and every other function for a region that holds a store. Bytes of the
// room behind the rows are left open by every function that writes. Internal layer: what a function
// requires is its callers' to show.
// Kept: a `requires` states the rule, as no ghost field stands beside the `&mut` of a region.
#![tactic(auto)]

mod check;
mod index;
mod reading;
mod row;
mod writing;

pub use check::is_fine;
pub use index::move_index;
pub use reading::{Place, body_at, count, find, fits, key_at, look_up, row_size, used};
pub use writing::{clear, delete_at, write_at};
