ghost use Rattle.std.specs.Prelude.{◌≡◌};
ghost use Rattle.gts_heading.specs.Heading.{fields_of};
ghost use Rattle.gts_store.specs.Marks.{mark_of};

use gts_frame::Kind;
use gts_heading::Heading;

/// A bulletin that is kept: the circuit it came in on, the type of its frame, its heading and the mark of that, all its bytes,
/// and how many uses of it are left.
#[derive(Drop)]
pub struct Bulletin {
    pub from: u32,
    pub kind: Kind,
    pub heading: Heading,
    pub mark: u32,
    pub body: Vec<u8>,
    pub uses: u64,
    ghost marked: { mark ≡ mark_of (fields_of heading) },
}
