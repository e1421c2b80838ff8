//! What stands in front of the parts of a checkpoint, as it is written and as it is read, also of bytes that end within it.
ghost use Rattle.std.specs.Prelude.{◌≡◌, ◌≤◌, ◌^◌, IfSome, IfNone, IsSome};
ghost use Rattle.gts_checkpoint.specs.Cited.{IsNoFront, IsNoHead, LONGEST_BODY as longest_body, bulletin_by, bulletin_head, circuit_by, circuit_head, front_by, head_text, or_else};
ghost use Rattle.gts_checkpoint.specs.Heads as definitions;

use gts_alphabet::LONGEST_BODY;
use gts_frame::Kind;
use gts_record::{eight_bytes, four_bytes, letter_of, number_in_eight, number_in_four, read_kind};

/// How many bytes stand in front of the bulletins of a checkpoint.
pub const FRONT: usize = 20;

/// How many bytes stand in front of a body, and in front of the positions of a circuit.
pub const HEAD: usize = 16;

/// What a checkpoint lists: bulletins, and circuits behind them.
#[derive(Clone, Copy)]
pub enum Listed {
    /// A bulletin that is needed: its head, and its body.
    Bulletin,
    /// A circuit: its head, and the positions that wait or are kept there.
    Circuit,
}

/// What stands in front of the bulletins of a checkpoint.
#[derive(Clone, Copy)]
pub(crate) struct Front {
    pub(crate) circuits: u32,
    pub(crate) accepted: u64,
    pub(crate) bulletins: u32,
}

/// What stands in front of a body.
#[derive(Clone, Copy)]
pub(crate) struct BulletinHead {
    pub(crate) position: u64,
    pub(crate) from: u8,
    pub(crate) kind: Kind,
    pub(crate) size: u32,
}

/// What stands in front of the positions of a circuit.
#[derive(Clone, Copy)]
pub(crate) struct CircuitHead {
    pub(crate) draws: u64,
    pub(crate) waiting: u32,
    pub(crate) kept: u32,
}

/// The first bytes of a checkpoint, up to its bulletins.
pub(crate) fn head(circuits: u32, accepted: u64, bulletins: u32) -> [u8; FRONT]
    ensures { result ≡ head_text circuits accepted bulletins }
{
    let mut text = [0u8; FRONT];
    text[0] = b'C';
    text[4..8].copy_from_slice(&four_bytes(circuits));
    text[8..16].copy_from_slice(&eight_bytes(accepted));
    text[16..].copy_from_slice(&four_bytes(bulletins));
    text
}

/// What stands in front of a body.
pub(crate) fn before_body(position: u64, from: u8, kind: Kind, size: u32) -> [u8; HEAD]
    ensures { result ≡ bulletin_head position from kind size }
{
    let mut text = [0u8; HEAD];
    text[..8].copy_from_slice(&eight_bytes(position));
    text[8] = from;
    text[9] = letter_of(kind);
    text[12..].copy_from_slice(&four_bytes(size));
    text
}

/// What stands in front of the positions of a circuit.
pub(crate) fn before_positions(draws: u64, waiting: u32, kept: u32) -> [u8; HEAD]
    ensures { result ≡ circuit_head draws waiting kept }
{
    let mut text = [0u8; HEAD];
    text[..8].copy_from_slice(&eight_bytes(draws));
    text[8..12].copy_from_slice(&four_bytes(waiting));
    text[12..].copy_from_slice(&four_bytes(kept));
    text
}

/// Bytes put over those of a text, as far as they are there.
pub fn put_over(text: &mut [u8], bytes: &[u8])
    ensures { text.new ≡ or_else text.old bytes.now }
{
    let count = text.len().min(bytes.len());
    text[..count].copy_from_slice(&bytes[..count]);
}

/// The first bytes of a checkpoint; what is lacking of them is taken from the least ones.
pub(crate) fn front_in(bytes: &[u8]) -> Option<Front>
    ensures found { IfSome result
        (λ h. front_by bytes.now ≡ head_text h.circuits h.accepted h.bulletins) }
    ensures none { IfNone result (IsNoFront (front_by bytes.now)) }
{
    let mut text = head(0, 0, 0);
    put_over(&mut text, bytes);
    let (letter, rest) = text.split_first_chunk::<4>()?;
    let [b'C', 0, 0, 0] = *letter else {
        return None;
    };
    let (circuits, rest) = rest.split_first_chunk::<4>()?;
    let (accepted, rest) = rest.split_first_chunk::<8>()?;
    let (bulletins, _) = rest.split_first_chunk::<4>()?;
    Some(Front {
        circuits: number_in_four(circuits),
        accepted: number_in_eight(accepted),
        bulletins: number_in_four(bulletins),
    })
}

/// The head of a bulletin whose body isn't too long; what is lacking of it is taken from the least one.
pub(crate) fn bulletin_head_in(bytes: &[u8]) -> Option<BulletinHead>
    ensures found { IfSome result
        (λ h. bulletin_by bytes.now ≡ bulletin_head h.position h.from h.kind h.size) }
    ensures short { IfSome result (λ h. h.size ≤ longest_body) }
    ensures none { IfNone result (IsNoHead (bulletin_by bytes.now)) }
{
    let mut text = before_body(0, 0, Kind::An, 0);
    put_over(&mut text, bytes);
    let (position, rest) = text.split_first_chunk::<8>()?;
    let (letters, rest) = rest.split_first_chunk::<4>()?;
    let [from, letter, 0, 0] = *letters else {
        return None;
    };
    let kind = read_kind(letter)?;
    let (size, _) = rest.split_first_chunk::<4>()?;
    let size = number_in_four(size);
    if size as usize > LONGEST_BODY {
        return None;
    }
    Some(BulletinHead {
        position: number_in_eight(position),
        from,
        kind,
        size,
    })
}

/// The head of a circuit; what is lacking of it is taken from the least one.
pub(crate) fn circuit_head_in(bytes: &[u8]) -> Option<CircuitHead>
    ensures found { IfSome result
        (λ h. circuit_by bytes.now ≡ circuit_head h.draws h.waiting h.kept) }
    ensures some { IsSome result }
{
    let mut text = before_positions(0, 0, 0);
    put_over(&mut text, bytes);
    let (draws, rest) = text.split_first_chunk::<8>()?;
    let (waiting, rest) = rest.split_first_chunk::<4>()?;
    let (kept, _) = rest.split_first_chunk::<4>()?;
    Some(CircuitHead {
        draws: number_in_eight(draws),
        waiting: number_in_four(waiting),
        kept: number_in_four(kept),
    })
}

/// How many circuits and bulletins a checkpoint has by its first bytes, as far as they are there. `None` where it can't begin so.
#[tactic(auto, using(crate::proofs::HeadLemmas::front_none))]
pub fn front_counts(bytes: &[u8]) -> Option<(u32, u32)>
    ensures { result ≡ definitions.front_counts bytes.now }
{
    let front = front_in(bytes)?;
    Some((front.circuits, front.bulletins))
}

/// How many bytes a bulletin or a circuit has by its first ones, as far as they are there. `None` where it can't begin so.
#[tactic(auto, using(crate::proofs::HeadLemmas::bulletin_none))]
pub fn listed_size(listed: Listed, bytes: &[u8]) -> Option<usize>
    ensures size { result ≡ definitions.listed_size listed bytes.now }
    ensures bound { IfSome result (λ size. size ≤ 2 ^ 40) }
{
    match listed {
        Listed::Bulletin => {
            let head = bulletin_head_in(bytes)?;
            Some(HEAD + head.size as usize)
        }
        Listed::Circuit => {
            let head = circuit_head_in(bytes)?;
            Some(HEAD + 8 * (head.waiting as usize + head.kept as usize))
        }
    }
}
