//! What a try for a slot answers.

/// What one try for a slot answers: its value, or the number of the seat that holds it, plus 1.
#[derive(Drop)]
pub enum Take<T> {
    Taken(T),
    Held { turn: u64 },
}
