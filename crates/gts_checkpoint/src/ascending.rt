//! Numbers in ascending order, and what is found among them by bisection.

ghost use Rattle.std.specs.Prelude.{◌≡◌, length, true, false, IfOk, IfSome, IfNone, slice_get, Some};
ghost use Rattle.gts_checkpoint.specs.Cited.{IsNonDecreasing, IsPermutation, ascends, has, positions};

use gts_alphabet::NoMemory;
use gts_event::Bulletin;
use std::alloc::Global;

/// Whether each number is below the one behind it.
pub(crate) fn ascend(numbers: &[u64]) -> bool
    ensures { result ≡ ascends numbers.now }
{
    for i in 1..numbers.len() {
        if numbers[i - 1] >= numbers[i] {
            return false;
        }
    }
    true
}

/// Whether the positions of bulletins ascend.
pub(crate) fn positions_ascend(bulletins: &[Bulletin]) -> bool
    ensures { result ≡ ascends (positions bulletins.now) }
{
    for i in 1..bulletins.len() {
        if bulletins[i - 1].position >= bulletins[i].position {
            return false;
        }
    }
    true
}

/// The place of the bulletin with a position, among bulletins whose positions ascend.
pub(crate) fn place_of(bulletins: &[Bulletin], position: u64) -> Option<usize>
    requires { ascends (positions bulletins.now) ≡ true }
    ensures found { IfSome result
        (λ place. slice_get (positions bulletins.now) place ≡ Some position) }
    ensures none { IfNone result (has (positions bulletins.now) position ≡ false) }
{
    let mut low = 0;
    let mut high = bulletins.len();
    while low < high {
        let middle = low + (high - low) / 2;
        let here = bulletins[middle].position;
        if here == position {
            return Some(middle);
        }
        if here < position {
            low = middle + 1;
        } else {
            high = middle;
        }
    }
    None
}

/// The same numbers in ascending order.
pub(crate) fn sorted(alloc: Global, numbers: &[u64]) -> Result<Vec<u64>, NoMemory>
    ensures order { IfOk result (λ sorted. IsNonDecreasing sorted.items) }
    ensures same { IfOk result (λ sorted. IsPermutation numbers.now sorted.items) }
{
    let mut sorted = Vec::from_slice(alloc, numbers)?;
    sorted.sort_unstable();
    Ok(sorted)
}

/// Whether a number is among numbers in ascending order.
pub fn is_among(numbers: &[u64], number: u64) -> bool
    requires { IsNonDecreasing numbers.now }
    ensures { result ≡ has numbers.now number }
{
    numbers.binary_search(&number).is_ok()
}
