/// How packing a stream ended.
#[derive(Clone, Copy, Debug, PartialEq, Eq)]
pub enum PackEnd {
    /// The file of all its messages was said, with its end.
    Done,
    /// The stream is bad at this place, counted from 0: synchronisation is lost at that byte; or the bytes end there inside a
    /// frame; or they go on there past the greatest length. The entries before it were said.
    Bad { at: u64 },
    /// Reading the stream failed; the entries of what had been read were said.
    SourceFault,
    /// Saying failed.
    SayFault,
    /// There was no memory. Nothing was read or said.
    NoMemory,
}
