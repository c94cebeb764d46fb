//! The syntax of parameter texts: from bytes to a tree of groups, subs and settings, and back.
//!
//! `read` answers the tree of a text exactly where the text spells one, else the first fault. `write` gives the one
//! canonical text of a tree. Tokens stand in `specs/Tokens.antt`, the grammar in `specs/Grammar.antt`, what reading
//! answers in `specs/Reading.antt`, canonical texts in `specs/Canonical.antt`.
#![tactic(auto)]

mod classes;
mod fault;
mod lexer;
mod parser;
mod reading;
mod reading_laws;
mod refusal;
mod state;
mod token;
mod tree;
mod writing;
mod writing_laws;

pub use fault::{ReadError, SyntaxFault, SyntaxKind};
pub use reading::read;
pub use reading_laws::{each_text_reads, one_reading};
pub use tree::{Atom, Atoms, Group, Item, Items, Setting, Settings, Tree, Value};
pub use writing::write;
pub use writing_laws::canonical_text_reads_again;
