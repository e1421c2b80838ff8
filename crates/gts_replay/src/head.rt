/// The head of one step of a capture: a line that ends with LF (profile).
#[derive(Clone, Copy, Debug, PartialEq, Eq)]
pub enum Head {
    /// The next `length` bytes, at most 999,999, come on this circuit.
    Feed { c: u32, length: u32 },
    /// One take on this circuit.
    Take { c: u32 },
    /// This circuit begins a new connection; a frame that isn't whole is dropped.
    Reopen { c: u32 },
    /// Takes on this circuit, up to and including the first that gives nothing.
    Drain { c: u32 },
    /// The switch is given up and its journal opened again; every circuit begins a new connection.
    Restart,
    /// The journal is compacted.
    Compact,
    /// The end: nothing behind it is read.
    End,
}
