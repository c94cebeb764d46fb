//! Work that is split among threads which all start at once.
//!
//! `try_for_each_mut` calls a function at each element of a slice, and answers an error where a call does. `map_vec`
//! promises what that of `std::thread` does. The calling thread starts all others itself, one after another, and then
//! waits for them: a new thread may be put on the processor of the one that started it, where it begins no sooner than
//! that one waits.
#![tactic(auto)]

mod jobs;
mod runs;

pub use jobs::map_vec;
pub use runs::{threads_for, try_for_each_mut};
