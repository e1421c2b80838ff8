/// The moment at which numbers are asked for: it stands in the heading of the request.
#[derive(Clone, Copy, Debug, PartialEq, Eq)]
pub struct Moment {
    /// The day of the month: 1 to 31.
    pub day: u32,
    /// The hour: 0 to 23.
    pub hour: u32,
    /// The minute: 0 to 59.
    pub minute: u32,
}
