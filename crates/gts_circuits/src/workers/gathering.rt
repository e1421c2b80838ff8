ghost use Rattle.std.specs.Prelude.{◌≡◌, ◌≤◌, ℕ, [], Some, length, vec_capacity};
ghost use mathlib.Core.Option.{some};
ghost use lib.ListN.{get_elem?};
ghost use Rattle.gts_circuits.specs.Cited.{AreGathered, Work};

use crate::workers::line::Line;
use crate::workers::worker::Worker;
use crate::{Began, Housed};
use gts_lock::{Hall, Pass};
use gts_traits::{Line as Connections, Sink, Station};

/// Joins the passes of all workers, and puts their lines side by side.
pub(crate) fn gather<P, B, S, K>(
    hall: &Hall<Housed<P, B>>,
    first: Pass<Housed<P, B>>,
    workers: Vec<Worker<'_, P, B, S, K>>,
    lines: &mut Vec<Line<S, K>>,
) -> Pass<Housed<P, B>>
where
    P: Station + Drop,
    B: Began,
    S: Connections + Drop,
    K: Sink + Drop,
    requires hall { first.hall ≡ Some hall.now }
    requires new { (first.name ≡ 0) × (first.joined ≡ []) }
    requires halls { (k : ℕ) (w : Work S K)
        → get_elem? workers.items k ≡ some w → w.hall ≡ hall.now }
    requires room { (lines.old.items ≡ []) × (length workers.items ≤ vec_capacity lines.old) }
    ensures hall { (result.hall ≡ Some hall.now) × (result.name ≡ 0) }
    ensures pass { (result.parted ≡ first.parted) × (result.own ≡ first.own) }
    ensures joined { length result.joined ≡ length workers.entry.items }
    ensures gathered { AreGathered B.beginning S.Source K.Sink
        result lines.new.items (length workers.entry.items) workers.entry.items }
    ensures count { length lines.new.items ≡ length workers.entry.items }
{
    let mut first = first;
    for worker in workers {
        let (pass, line) = worker.finish();
        first = hall.join(first, pass);
        lines.push_reserved(line);
    }
    first
}
