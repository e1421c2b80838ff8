/// A port of a circuit's row, by its key.
#[derive(Clone, Copy, Debug, PartialEq, Eq)]
pub enum Key {
    /// The port on which the switch listens.
    Input,
    /// The neighbour's port.
    Output,
}

/// Something odd of a directory that is sound. Circuits and rules count from 0. What is said of ports and rules is said of
/// circuits that aren't closed (profile).
#[derive(Clone, Copy, Debug, PartialEq, Eq)]
pub enum Finding {
    /// A bulletin as long as one may be never has room in the journal.
    NarrowLimit,
    /// The circuit's neighbour is the own centre.
    OwnPeer { circuit: usize },
    /// An earlier circuit has the same neighbour: the first such. No bulletin goes from one of the two to the other.
    PeerTwice { circuit: usize, earlier: usize },
    /// Fewer draws are kept than there are numbers of three digits.
    FewKept { circuit: usize },
    /// The circuit has no port at this key.
    NoPort { circuit: usize, key: Key },
    /// The port is below those that every program may listen on.
    LowPort { circuit: usize, key: Key },
    /// The port is one of those that the system gives to outgoing connections.
    SystemPort { circuit: usize, key: Key },
    /// An earlier circuit has the same input: the first such.
    InputTwice { circuit: usize, earlier: usize },
    /// An earlier circuit has the same output at the same host: the first such.
    OutputTwice { circuit: usize, earlier: usize },
    /// The circuit's input is its output.
    SamePorts { circuit: usize },
    /// The circuit's host and output are where the switch listens for another circuit: the first such.
    CallsItself { circuit: usize, called: usize },
    /// No rule names the circuit.
    NoRule { circuit: usize },
    /// The rule names no circuit.
    NoCircuit { rule: usize },
    /// An earlier rule says the same: the first such.
    RuleTwice { rule: usize, earlier: usize },
    /// Another rule says all that this one says, and more: the first such. Bulletins go to the circuits of all rules that
    /// match, whatever their order.
    RuleCovered { rule: usize, by: usize },
}
