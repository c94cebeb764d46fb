//! The tokens of a text.

use crate::tree::Atom;
use cello_num::Name;

/// A sign.
#[derive(Debug, Clone, Copy, PartialEq, Eq)]
pub enum Sign {
    /// `{`
    Opens,
    /// `}`
    Closes,
    /// `=`
    Equals,
    /// `;`
    Ends,
    /// `[`
    ListOpens,
    /// `]`
    ListCloses,
    /// `,`
    Comma,
}

/// A sign, a name, or a number or word.
#[derive(Debug, Clone, Copy, PartialEq, Eq)]
pub enum Token {
    Sign(Sign),
    Name(Name),
    Atom(Atom),
}
