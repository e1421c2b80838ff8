/// What becomes of what waits on circuits that are closed in the new directory.
#[derive(Clone, Copy, Debug, PartialEq, Eq)]
pub enum Waiting {
    /// The journal isn't taken over.
    Refused,
    /// It is dropped, and a receipt is said for each.
    Dropped,
}
