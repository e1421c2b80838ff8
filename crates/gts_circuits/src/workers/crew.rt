ghost use Rattle.std.specs.Prelude.{◌≡◌, ◌≤◌, IfOk};
ghost use Rattle.gts_alphabet.specs.declared.limits.TheConstants.{MOST_CIRCUITS};

use crate::Began;
use crate::workers::line::Line;
use crate::workers::worker::Worker;
use gts_traits::{Line as Connections, NoMemory, Sink, Station};
use std::alloc::Global;
use std::marker::Model;

/// The memory that the workers of some circuits take: room for all of them, and for their lines once they have ended.
#[derive(Drop)]
pub struct Crew<'a, P: Station, B: Began, S: Connections, K: Sink> {
    pub(crate) circuits: usize,
    pub(crate) workers: Vec<Worker<'a, P, B, S, K>>,
    pub(crate) senders: Vec<Worker<'a, P, B, S, K>>,
    pub(crate) lines: Vec<Line<S, K>>,
}

// What contracts see of it: for how many circuits there is room.
impl<'a, P: Station, B: Began, S: Connections, K: Sink> Model for Crew<'a, P, B, S, K> {
    ghost use Rattle.std.specs.Prelude.{◌≡◌, ◌*◌, ◌≤◌, ℕ, [], vec_capacity};

    ghost Value = { ℕ };

    ghost view = { λ crew. crew.circuits };

    ghost invariant = { λ crew.
        (crew.workers.items ≡ []) × (crew.senders.items ≡ []) × (crew.lines.items ≡ [])
        × (2 * crew.circuits ≤ vec_capacity crew.workers)
        × (crew.circuits ≤ vec_capacity crew.senders)
        × (2 * crew.circuits ≤ vec_capacity crew.lines) };
}

impl<'a, P, B, S, K> Crew<'a, P, B, S, K>
where
    P: Station + Drop,
    B: Began,
    S: Connections + Drop,
    K: Sink + Drop,
{
    /// The memory for the workers of so many circuits.
    pub fn with_room(alloc: Global, circuits: usize) -> Result<Crew<'a, P, B, S, K>, NoMemory>
        requires { circuits ≤ MOST_CIRCUITS }
        ensures { IfOk result (λ crew. crew ≡ circuits) }
    {
        Ok(Crew {
            circuits,
            workers: Vec::with_capacity(alloc, 2 * circuits)?,
            senders: Vec::with_capacity(alloc, circuits)?,
            lines: Vec::with_capacity(alloc, 2 * circuits)?,
        })
    }
}
