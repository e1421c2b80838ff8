use crate::Counting;

/// A switch, and what is counted beside it.
#[derive(Drop)]
pub struct CountedParts<T> {
    pub switch: T,
    pub counting: Counting,
}
