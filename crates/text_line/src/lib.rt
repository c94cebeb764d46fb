//! Lines of text, put together before they are written.
//!
//! A `Text` lies in the value itself and takes no memory. It grows by bytes, decimal numbers, names and places, each
//! exactly as it is shown; each call says how much room it wants. Numbers are shown by std's `decimal` and
//! `signed_decimal`, the other forms stand in `specs/Shown.antt`.
#![tactic(auto)]

mod text;

pub use text::{LINE_ROOM, Line, Text};
