//! What is wrong with the syntax of a text.

/// Why a token can't be formed, or isn't allowed where it stands.
#[derive(Debug, Clone, Copy, PartialEq, Eq)]
pub enum SyntaxKind {
    /// The text has more than 65,536 bytes. The offset is 65536.
    Long,
    /// The byte begins no token.
    Byte,
    /// The name has more than 32 bytes.
    Name,
    /// The `-` has no digit after it, or the number is out of range.
    Number,
    /// The word has a byte that isn't allowed, no closing `"`, or more than 32 bytes.
    Word,
    /// It is the 65th element of its list.
    Length,
    /// The token isn't allowed after those before it.
    Unexpected,
    /// The text ends inside a group. The offset is its length.
    End,
}

/// The first fault of a text's syntax. The offset, in bytes, is where the token begins.
#[derive(Debug, Clone, Copy, PartialEq, Eq)]
pub struct SyntaxFault {
    pub offset: u32,
    pub kind: SyntaxKind,
}

/// Why a text isn't read.
#[derive(Debug, Clone, Copy, PartialEq, Eq)]
pub enum ReadError {
    Syntax(SyntaxFault),
    /// Memory was refused.
    Memory,
}
