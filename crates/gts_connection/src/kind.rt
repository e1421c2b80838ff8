/// Of which kind a capture is: which heads it may have (profile).
#[derive(Clone, Copy, Debug, PartialEq, Eq)]
pub enum CaptureKind {
    /// Its switch keeps a journal: `R` opens that again, and `C` compacts it.
    Journaled,
    /// It is about the traffic of circuits alone: `R` and `C` begin no head.
    Traffic,
}
