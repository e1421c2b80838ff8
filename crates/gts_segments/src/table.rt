ghost use Rattle.std.specs.Prelude.{◌≡◌, ◌≢◌, ◌+◌, ◌<◌, ◌≤◌, ◌↔◌, ℕ, false, [], IsTrue, IsOk, OnOk, OnErr};
ghost use Rattle.gts_segments.specs.Cited.{IsComplete, IsMissing, NotesToo, fields_of, groups_of, passing};
ghost use Rattle.gts_segments.specs.Groups as groups;

use crate::groups::{GROUPS, LETTERS, PLACES, group_at, is_segment};
use gts_alphabet::NoMemory;
use gts_heading::Heading;
use std::alloc::Global;
use std::collections::HashSet;
use std::marker::Model;

/// What is known of the segments of one bulletin.
#[derive(Clone, Copy, Debug, PartialEq, Eq)]
pub enum SegmentStatus {
    /// None was noted.
    Missing,
    /// So many different groups were noted, which aren't a whole set.
    Partial(u32),
    /// So many segments are the whole set.
    Complete(u32),
}

/// The headings of segments that were noted. Contracts see their texts.
#[derive(Drop)]
pub struct SegmentTable {
    noted: HashSet<[u8; 22]>,
}

impl Model for SegmentTable {
    ghost use Rattle.gts_segments.specs.Segments.{Noted};

    ghost Value = { Noted };

    ghost view = { λ table. table.noted.keys };
}

impl SegmentTable {
    /// A table in which nothing is noted. It takes no memory.
    pub fn new(alloc: Global) -> SegmentTable
        ensures { result ≡ [] }
    {
        SegmentTable {
            noted: HashSet::new(alloc),
        }
    }

    /// Notes the heading of a segment. Any other heading changes nothing.
    pub fn note(&mut self, heading: &Heading) -> Result<(), NoMemory>
        ensures segment { IsTrue (groups.is_segment (fields_of heading.now))
            → OnOk result (NotesToo self.old self.new (fields_of heading.now)) }
        ensures other { groups.is_segment (fields_of heading.now) ≡ false
            → IsOk result × (self.new ≡ self.old) }
        ensures unchanged { OnErr result (self.new ≡ self.old) }
    {
        if is_segment(heading) {
            let mut text = [0; 22];
            heading.write(&mut text);
            self.noted.insert(text)?;
        }
        Ok(())
    }

    /// What is known of the segments that have this heading but for the group: whether they are the places from 0 on
    /// and the one last segment behind them (profile).
    pub fn status(&self, heading: &Heading) -> SegmentStatus
        ensures missing { (result ≡ SegmentStatus.Missing)
            ↔ IsMissing (groups_of self.now (fields_of heading.now)) }
        ensures complete { (k : ℕ) → (result ≡ SegmentStatus.Complete (k + 1))
            ↔ IsComplete (groups_of self.now (fields_of heading.now)) k }
        ensures partial { (n : ℕ) → result ≡ SegmentStatus.Partial n
            → n ≡ passing (groups_of self.now (fields_of heading.now)) 0 GROUPS }
        ensures not_of_none { result ≢ SegmentStatus.Complete 0 }
    {
        let places = self.count(heading, 0, PLACES);
        let lasts = self.count(heading, PLACES, LETTERS);
        if places + lasts == 0 {
            return SegmentStatus::Missing;
        }
        if self.is_whole(heading, places, lasts) {
            SegmentStatus::Complete(u32::from(places) + 1)
        } else {
            SegmentStatus::Partial(u32::from(places + lasts))
        }
    }

    /// Whether the noted groups, so many places and last segments, are a whole set.
    fn is_whole(&self, heading: &Heading, places: u16, lasts: u16) -> bool
        requires places { places ≡ passing (groups_of self.now (fields_of heading.now)) 0 PLACES }
        requires lasts { lasts
            ≡ passing (groups_of self.now (fields_of heading.now)) PLACES LETTERS }
        requires within { places ≤ PLACES }
        ensures { IsTrue result
            ↔ IsComplete (groups_of self.now (fields_of heading.now)) places }
    {
        lasts == 1
            && self.count(heading, 0, places) == places
            && self.is_noted(heading, PLACES + places % LETTERS)
    }

    /// How many of so many places from one on are noted.
    #[tactic(auto, unfolding(crate::specs::Segments::passing))]
    fn count(&self, heading: &Heading, from: u16, places: u16) -> u16
        requires { from + places ≤ GROUPS }
        ensures count { result ≡ passing (groups_of self.now (fields_of heading.now)) from places }
        ensures within { result ≤ places }
    {
        let mut count = 0;
        for place in 0..places {
            if self.is_noted(heading, from + place) {
                count += 1;
            }
        }
        count
    }

    /// Whether the group at a place is noted.
    fn is_noted(&self, heading: &Heading, place: u16) -> bool
        requires { place < GROUPS }
        ensures { result ≡ groups_of self.now (fields_of heading.now) place }
    {
        let mut segment = *heading;
        segment.bbb = Some(group_at(place));
        let mut text = [0; 22];
        segment.write(&mut text);
        self.noted.contains(&text)
    }
}
