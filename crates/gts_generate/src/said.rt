ghost use Rattle.std.specs.Prelude.{◌≡◌, ◌≤◌, [], length, IfOk, if◌then◌else◌};
ghost use Rattle.sha2.specs.Sha256.{sha256};
ghost use Rattle.gts_generate.specs.Cited.{calls_of, said_by};
ghost use Rattle.gts_generate.specs.Summary as summaries;

use crate::CIRCUITS;
use gts_alphabet::ETX;
use gts_memory::MemStation;
use gts_traits::{Channel, NoMemory};
use sha2::{Digest, Sha256};

/// What was said on the channels of the circuits: how many bytes, how many frames, and the digest of all the bytes.
#[derive(Clone, Copy)]
pub(crate) struct Said {
    pub(crate) bytes: u128,
    pub(crate) frames: u128,
    pub(crate) digest: [u8; 32],
}

/// How many frames end in these bytes: each ends with ETX, and no bulletin of the day has another.
fn frames_in(bytes: &[u8]) -> usize
    ensures count { result ≡ summaries.frames_in bytes.now }
    ensures most { result ≤ length bytes.now }
{
    bytes.iter().filter(|byte| **byte == ETX).count()
}

/// What was said on a channel, where it is one of a circuit; else nothing.
fn on_circuit(channel: Channel, said: &[u8]) -> &[u8]
    ensures { result.now ≡ (if summaries.is_circuit channel then said.now else []) }
{
    let number = channel.number();
    if 1 <= number && number <= CIRCUITS {
        said
    } else {
        &[]
    }
}

/// What a station said on the channels of the circuits, in the order in which it was said. `NoMemory` where it said more
/// often than any memory can hold.
pub(crate) fn said_on_circuits(station: &MemStation) -> Result<Said, NoMemory>
    ensures bytes { IfOk result (λ said. said.bytes
        ≡ length (summaries.frames_said (said_by (calls_of station.now.past)))) }
    ensures frames { IfOk result (λ said. said.frames
        ≡ summaries.frames_in (summaries.frames_said (said_by (calls_of station.now.past)))) }
    ensures digest { IfOk result (λ said. said.digest
        ≡ sha256 (summaries.frames_said (said_by (calls_of station.now.past)))) }
{
    let mut hasher = Sha256::new();
    let (mut bytes, mut frames) = (0, 0);
    for k in 0..u64::MAX {
        let Some(found) = station.saying(k) else {
            return Ok(Said {
                bytes,
                frames,
                digest: hasher.finalize(),
            });
        };
        let said = on_circuit(found.0, found.1);
        hasher.update(said);
        bytes += said.len() as u128;
        frames += frames_in(said) as u128;
    }
    Err(NoMemory)
}
