//! Laws over the definitions, each the contract of a function with an empty body.
ghost use Rattle.std.specs.Prelude.{◌≡◌, ◌↔◌, ◌+◌, ◌-◌, ◌≤◌, ◌++◌, [], ◌∷◌, ℕ, List, IsTrue, true, false, length, take, min, flat_map};
ghost use Rattle.gts_connection.specs.Cited.{AllByRecursion, AreSteps, AreStepsOf, CaptureKind, Connections, Decoding, Directory, EndHead, EndsEarlyOf, Event, Heard, IsConnection, IsFramed, IsFront, IsStreamFront, IsWholeOf, Kind, LONGEST_CAPTURE, ReadingOf, ReadsOn, State, Step, after_all, compactions, compactions_behind, compactions_from, connection, connections_after, entries, entries_from, events_added, events_in, events_of_signs, frame, head_text, is_front, is_here, is_lost, joined, list_all, list_any, no_bytes, readable, signs_in, signs_of_step, step_text};
ghost use Rattle.gts_frame.specs.declared.step.Step.{Step as FrameStep};

/// A frame at the front of a connection is heard, and then what is behind it.
pub fn a_frame_at_the_front_is_heard()
    ensures { (c n : ℕ) (kind : Kind) (message rest : List ℕ) → IsFramed message
        → events_in c (n + 1) (frame kind message ++ rest)
        ≡ Heard c kind message ∷ events_in c n rest }
{}

/// What is computed to be the front of a frame or keep-alive is one, and every one is computed to be one.
pub fn a_front_is_what_is_computed()
    ensures { (bytes : List ℕ) → (is_front bytes ≡ true) ↔ IsFront bytes }
{}

/// The bytes of a connection, whatever they are, have the events that are computed, and no others; and one of these is a
/// loss exactly where no stream begins with the bytes.
pub fn a_connection_has_one_reading()
    ensures computed { (c : ℕ) (bytes : List ℕ) → IsConnection c bytes (connection c bytes) }
    ensures one { (c : ℕ) (bytes : List ℕ) (events others : List Event)
        → IsConnection c bytes events → IsConnection c bytes others → events ≡ others }
    ensures kept { (c : ℕ) (bytes : List ℕ)
        → (list_any is_lost (connection c bytes) ≡ false) ↔ IsStreamFront bytes }
{}

/// More bytes only add events, two pieces add what each adds in turn, and after a loss nothing is added.
pub fn more_bytes_only_add_events()
    ensures added { (c : ℕ) (before more : List ℕ)
        → connection c (before ++ more) ≡ connection c before ++ events_added c before more }
    ensures twice { (c : ℕ) (before x y : List ℕ) → events_added c before (x ++ y)
        ≡ events_added c before x ++ events_added c (before ++ x) y }
    ensures lost { (c : ℕ) (before more : List ℕ)
        → IsTrue (list_any is_lost (connection c before)) → events_added c before more ≡ [] }
{}

/// Captures that differ only in how feeds are cut have the same entries.
pub fn feeds_may_be_cut_anywhere()
    ensures { (d : Directory) (s : State) (steps others : List Step) → AreSteps d steps
        → AreSteps d others → joined steps ≡ joined others
        → entries d s steps ≡ entries d s others }
{}

/// Any bytes are read as a capture of either kind, up to some place, and in one way: two digits tell up to 100 circuits
/// apart. Nothing is read behind the longest capture.
pub fn a_capture_has_one_reading()
    ensures some { (kind : CaptureKind) (d : Directory) (bytes : List ℕ)
        → (steps : List Step) × (at : ℕ) × ReadingOf kind d bytes steps at }
    ensures one { (kind : CaptureKind) (d : Directory) (bytes : List ℕ) (steps others : List Step)
        (at place : ℕ) → length d.circuits ≤ 100 → ReadingOf kind d bytes steps at
        → ReadingOf kind d bytes others place → (steps ≡ others) × (at ≡ place) }
    ensures within { (kind : CaptureKind) (d : Directory) (bytes : List ℕ) (steps : List Step)
        (at : ℕ) → ReadingOf kind d bytes steps at → at ≤ LONGEST_CAPTURE }
{}

/// No byte behind the longest capture is read: of bytes that are no longer all are, and behind a front that is no longer so
/// many of the others.
pub fn a_capture_is_read_up_to_the_longest()
    ensures all { (bytes : List ℕ) → length bytes ≤ LONGEST_CAPTURE → readable bytes ≡ bytes }
    ensures behind { (front rest : List ℕ) → length front ≤ LONGEST_CAPTURE
        → readable (front ++ rest) ≡ front ++ take (LONGEST_CAPTURE - length front) rest }
    ensures length { (bytes : List ℕ)
        → length (readable bytes) ≡ min (length bytes) LONGEST_CAPTURE }
{}

/// The capture that stands at the front of bytes is read, up to its end.
pub fn a_whole_capture_is_read_to_its_end()
    ensures { (kind : CaptureKind) (d : Directory) (bytes : List ℕ) (steps : List Step)
        → IsWholeOf kind d bytes steps → ReadingOf kind d bytes steps
        (length (flat_map step_text steps ++ head_text EndHead)) }
{}

/// Bytes that are bad, or end too early, have no capture at their front.
pub fn a_capture_that_ends_early_is_none()
    ensures { (kind : CaptureKind) (d : Directory) (bytes : List ℕ) (steps others : List Step)
        (at : ℕ) → length d.circuits ≤ 100 → EndsEarlyOf kind d bytes steps at
        → IsWholeOf kind d bytes others → ⊥ }
{}

/// The entries of more steps come behind those of the steps before, from the state and the connections that these leave.
pub fn steps_go_on()
    ensures entries { (d : Directory) (s : State) (steps more : List Step)
        → let first = entries d s steps in let bs = connections_after d (no_bytes d) steps in
        entries d s (steps ++ more) ≡ first ++ entries_from d (after_all d s first) bs more }
    ensures connections { (d : Directory) (steps more : List Step)
        → let bs = connections_after d (no_bytes d) steps in
        connections_after d (no_bytes d) (steps ++ more) ≡ connections_after d bs more }
    ensures each { (d : Directory) (steps : List Step)
        → length (connections_after d (no_bytes d) steps) ≡ length d.circuits }
{}

/// The compactions of more steps come behind those of the steps before, and each comes behind the entries of the steps
/// before it: behind no fewer than there were at first, and no more than there are at last.
pub fn compactions_go_on_with_the_entries()
    ensures more { (d : Directory) (s : State) (n : ℕ) (steps more : List Step)
        → compactions d s n (steps ++ more)
        ≡ compactions d s n steps ++ compactions_behind d s n steps more }
    ensures between { (d : Directory) (s : State) (bs : Connections) (n : ℕ) (steps : List Step)
        → let all = length (entries_from d s bs steps) in
        AllByRecursion (λ k. (n ≤ k) × (k ≤ n + all)) (compactions_from d s bs n steps) }
{}

/// What a capture does comes on circuits of the directory.
pub fn a_capture_comes_on_circuits_of_the_directory()
    ensures { (kind : CaptureKind) (d : Directory) (s : State) (steps : List Step)
        → AreStepsOf kind d steps → IsTrue (list_all (is_here d) (entries d s steps)) }
{}

/// The events of a connection are those of the signs that its bytes show, and each step of a decoder adds its own.
pub fn a_connection_has_the_events_of_its_steps()
    ensures all { (c : ℕ) (bytes : List ℕ)
        → connection c bytes ≡ events_of_signs c (signs_in bytes) }
    ensures step { (c : ℕ) (before taken : List ℕ) (step : FrameStep) (now : Decoding)
        → ReadsOn before taken step now
        → events_added c before taken ≡ events_of_signs c (signs_of_step step now.message) }
{}
