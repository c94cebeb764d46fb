//! What an entry of the tables of keys says.

/// What values a key takes.
#[derive(Clone, Copy)]
pub(crate) enum Wanted {
    /// A number from a least one to a greatest.
    Number(u64, u64),
    /// An even number from a least one to a greatest.
    Even(u64, u64),
    /// Three numbers, each from a least one to a greatest.
    Triple(u64, u64),
    /// Three numbers, each of at most this size, with either sign.
    TripleUpTo(u64),
    /// One of these words.
    OneOf(&'static [&'static [u8]]),
    /// Three of these words.
    ThreeOf(&'static [&'static [u8]]),
    /// The names of the fields.
    NewNames,
    /// The name of a field.
    FieldName,
    /// A number from 0 to the greatest amount, and for the kind `slope` to the greatest slope.
    Threshold,
}

/// What a key is where it is left out.
#[derive(Clone, Copy)]
pub(crate) enum Fallback {
    /// It may not be left out.
    Required,
    Number(u64),
    ThreeZeros,
    Word(&'static [u8]),
    ThreeWords(&'static [u8]),
    NoWords,
}

/// A key.
#[derive(Clone, Copy)]
pub(crate) struct Key {
    pub(crate) name: &'static [u8],
    /// The kinds of sub that have it; where none is named, all have it.
    pub(crate) kinds: &'static [&'static [u8]],
    pub(crate) wanted: Wanted,
    pub(crate) fallback: Fallback,
}
