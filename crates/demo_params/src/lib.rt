//! The demonstration: a text of parameters for each seed and each size.
//!
//! `demo_params` answers the text, whose words and drawn numbers stand in `specs/DemoTexts.antt`. Each such text is
//! accepted, with room for as many leaves as there can be: `demo_texts_are_accepted` says so.
#![tactic(auto)]

mod drawing;
mod groups;
mod laws;
mod texts;

pub use laws::{demo_texts_are_accepted, the_first_text};
pub use texts::demo_params;
