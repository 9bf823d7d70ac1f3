// A client's queue in a region of lent memory: the messages that are queued and untaken, and those
// that the running step owes the client so far. Of the crate's specs, Region has the layout and its
// rules, Rows how messages stand in it, Meaning what the operations do, and Post what they promise.
//
// Between steps a region is at rest, with nothing pending: then `is_fine` holds, and `take` serves.
// During a step `owe` is called for each message. The step ends with `settle`, or with `put_error`
// where the client is shut, as it is when `is_overflown`. Either leads back to rest.
//
// A function that writes promises the region's length, its rule and its meaning. Where the messages
// stand in the room, and what its other bytes hold, is left open. Internal layer: what a function
// requires is its callers' to show.
// Kept: a `requires` states the rule, as no ghost field stands beside the `&mut` of a region.
#![tactic(auto)]

mod outgoing;
mod owing;
mod region;
mod taking;

pub use owing::{error_fits, is_overflown, owe, put_error, settle};
pub use region::{clear, is_fine};
pub use taking::{first_length, is_empty, take};
