//! Laws on how a capture is read head by head, each the contract of a function with an empty body.

ghost use Rattle.std.specs.Prelude.{◌≡◌, ℕ, ◌+◌, ◌<◌, ◌≤◌, [], ◌∷◌, ◌++◌, List, length};
ghost use Rattle.gts_replay.specs.Cited.{CaptureKind, Directory, EndHead, EndsEarlyOf, EndsThere, FeedGoesOn, GoesOn, Held, IsBadAt, IsInFeed, IsReadTo, IsSameCapture, IsTaken, IsWholeOf, LONGEST_CAPTURE, Passes, Step, StopsInHead, at_start, head_text, readable_from};
ghost use Rattle.gts_connection.specs.Capture.{Feed};

/// No step was read of a capture at first, and a step more when its head and its bytes were read.
pub fn a_capture_is_read_step_by_step()
    ensures begins { (kind : CaptureKind) (d : Directory) (bytes : List ℕ)
        → IsReadTo kind d bytes [] (at_start (length d.circuits) kind) bytes }
    ensures step { (kind : CaptureKind) (d : Directory) (bytes before after : List ℕ)
        (steps : List Step) (step : Step) (old new : Held) → IsReadTo kind d bytes steps old before
        → Passes step old new before after → IsReadTo kind d bytes (steps ++ step ∷ []) new after }
{}

/// Where the end was read, the capture of the steps that were read stands at the front. Where what is read of what is left is
/// bad, or ends in a feed, they are the steps of the capture up to that place.
pub fn the_steps_that_were_read_are_the_captures()
    ensures end { (kind : CaptureKind) (d : Directory) (bytes after : List ℕ) (steps : List Step)
        (held : Held) → IsReadTo kind d bytes steps held (head_text EndHead ++ after)
        → held.at + length (head_text EndHead) ≤ LONGEST_CAPTURE → IsWholeOf kind d bytes steps }
    ensures bad { (kind : CaptureKind) (d : Directory) (bytes left : List ℕ) (steps : List Step)
        (held : Held) (at : ℕ) → IsReadTo kind d bytes steps held left
        → IsBadAt held (readable_from held.at left) at → EndsEarlyOf kind d bytes steps at }
    ensures cut { (kind : CaptureKind) (d : Directory) (bytes x left : List ℕ) (steps : List Step)
        (held : Held) (c n : ℕ) → IsInFeed kind d bytes steps held c n x left → length x < n
        → EndsThere kind d bytes steps held c n x left }
{}

/// Whatever is left behind steps that were read, or behind a part of a feed, the capture begins with what was read.
pub fn what_was_read_is_the_captures_beginning()
    ensures head { (kind : CaptureKind) (d : Directory) (place : ℕ) (left : List ℕ)
        → GoesOn kind d place left }
    ensures feed { (kind : CaptureKind) (d : Directory) (c n place : ℕ) (x left : List ℕ)
        → FeedGoesOn kind d c n place x left }
{}

/// Where the source failed, the bytes that were taken from it are read as the steps so far, the feed in work among them.
pub fn what_was_taken_is_read()
    ensures head { (kind : CaptureKind) (d : Directory) (bytes x left : List ℕ)
        (steps : List Step) (old new : Held) → IsReadTo kind d bytes steps old (old.ahead ++ x)
        → IsSameCapture old new → StopsInHead old new x left → IsTaken kind d bytes steps left }
    ensures feed { (kind : CaptureKind) (d : Directory) (bytes x left : List ℕ) (steps : List Step)
        (held : Held) (c n : ℕ) → IsInFeed kind d bytes steps held c n x left → length x < n
        → IsTaken kind d bytes (steps ++ Feed c x ∷ []) left }
{}
