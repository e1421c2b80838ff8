ghost use Rattle.std.specs.Prelude.{◌≡◌, ◌<◌, length};
ghost use Rattle.gts_accum.specs.Traced.{IsSince};
ghost use Rattle.gts_accum.specs.Cited.{CountsUnpack, HasFileCause, IsFileEnd, IsPlaceMet, Unpacks, badplace};

use crate::traced::{OfFile, Traced};
use crate::{UnpackEnd, a_file_is_a_capture};
use gts_calls::Switch;
use gts_connection::{CaptureKind, a_capture_has_one_reading, a_capture_that_ends_early_is_none};
use gts_replay::{ReplayEnd, replay};
use gts_traits::{Failed, Source};
use std::alloc::Global;
use std::marker::Brand;

/// The end of a run in which the capture ended early, at this place of it: the file is bad at the place that was met. One that
/// tells its bytes has met one.
fn end_of_file<S: Source, B: OfFile>(traced: &mut Traced<S, B>, at: u64) -> UnpackEnd
    ensures told { S.observed → IsPlaceMet (badplace B.file) result }
    ensures kind { IsFileEnd result }
    ensures since { IsSince S.faults B.faults traced.old.source }
    ensures cause { HasFileCause result (S.faults traced.old.source.source)
        (S.faults traced.new.source.source) }
{
    match traced.bad() {
        Ok(place) => UnpackEnd::Bad {
            at: place.unwrap_or(at),
        },
        Err(Failed) => UnpackEnd::Ended(ReplayEnd::SourceFault),
    }
}

/// Runs a file that is picked in contracts alone.
fn unpack_of<W: Switch, S: Source, B: OfFile>(
    alloc: Global,
    switch: &mut W,
    file: S,
    c: u32,
) -> (UnpackEnd, S)
    requires file { S.observed → S.left file ≡ B.file }
    requires picked { c ≡ B.circuit }
    requires faults { S.faults file ≡ B.faults }
    requires circuit { c < length (W.meanings.directory switch.old).circuits }
    ensures ends { Unpacks W.meanings W.observed S.observed result.0
        switch.old switch.new (S.left file) (S.left result.1) c }
    ensures directory { W.meanings.directory switch.new ≡ W.meanings.directory switch.old }
    ensures cause { CountsUnpack W.Switch S.Source result.0 switch.old switch.new file result.1 }
{
    // What the file stands for is a capture, or ends too early, and is read in one way.
    a_file_is_a_capture();
    a_capture_has_one_reading();
    a_capture_that_ends_early_is_none();
    let _few = switch.circuits();
    let mut traced: Traced<S, B> = Traced::new(file, c);
    let end = match replay(alloc, switch, &mut traced, CaptureKind::Journaled) {
        ReplayEnd::Capture { at } => end_of_file(&mut traced, at),
        end => UnpackEnd::Ended(end),
    };
    (end, traced.into_inner())
}

/// Runs a file of accumulated bulletins through a switch: the capture that it stands for, its messages on circuit `c`. The source
/// is handed back.
pub fn unpack<W: Switch, S: Source>(
    alloc: Global,
    switch: &mut W,
    file: S,
    c: u32,
) -> (UnpackEnd, S)
    requires { c < length (W.meanings.directory switch.old).circuits }
    ensures ends { Unpacks W.meanings W.observed S.observed result.0
        switch.old switch.new (S.left file) (S.left result.1) c }
    ensures directory { W.meanings.directory switch.new ≡ W.meanings.directory switch.old }
    ensures cause { CountsUnpack W.Switch S.Source result.0 switch.old switch.new file result.1 }
{
    unpack_of::<W, S, Brand>(alloc, switch, file, c)
}
