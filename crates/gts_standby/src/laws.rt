//! Laws over the definitions, each the contract of a function with an empty body.
ghost use Rattle.std.specs.Prelude.{◌≡◌, ◌++◌, ◌<◌, ◌^◌, ℕ, List, length, Ok, Some};
ghost use Rattle.gts_standby.specs.Cited.{AddsFront, Directory, FeedBrings, Files, HasFront, HasNoRecord, HasPart, IsFeedOf, IsFoundBehind, IsOvertaken, IsPlainFeed, LeadsTo, State, Taken, Version, comes_to, found_since, held, nothing_read, state_of};

/// A feed that is cut anywhere adds nothing, or a first part of what the whole feed adds: a journal begins with the same
/// checkpoint, or with none, and has the first of the same records.
pub fn a_front_of_a_feed_adds_a_front()
    ensures { (d : Directory) (files : Files) (fed more : List ℕ) (part whole : Taken)
        → length d.mark ≡ 32 → d.limit < 256 ^ 4 → comes_to d files fed ≡ Ok part
        → comes_to d files (fed ++ more) ≡ Ok whole → AddsFront part whole }
{}

/// The feed of a station's journal, which has no checkpoint, may be cut anywhere: what it brings to a standby without records is
/// a state from which further records lead to the station's.
pub fn a_front_of_a_feed_comes_to_a_front_of_the_history()
    ensures { (d : Directory) (own files : Files) (s : State) (fed more : List ℕ) (part : Taken)
        → length d.mark ≡ 32 → d.limit < 256 ^ 4 → HasNoRecord d own → IsPlainFeed d files s
        (fed ++ more) → comes_to d own fed ≡ Ok part → LeadsTo d (state_of d part) s }
{}

/// The whole feed of a station's journal, whether it begins with a checkpoint or not, brings a standby without records to what the
/// station's journal reads to: the same state, end and last seal.
pub fn a_whole_feed_brings_a_new_standby_to_the_station()
    ensures { (d : Directory) (own files : Files) (read : State × ℕ × List ℕ) (fed : List ℕ)
        → length d.mark ≡ 32 → d.limit < 256 ^ 4 → HasNoRecord d own
        → IsFeedOf d files read fed → FeedBrings d own fed (nothing_read d) read }
{}

/// So it brings a standby that has a first part of the station's records, with a checkpoint first or without one: one whose own feed
/// is a front of the station's.
pub fn a_whole_feed_brings_a_standby_that_has_a_part()
    ensures { (d : Directory) (own files : Files) (from read : State × ℕ × List ℕ)
        (fed more : List ℕ) → length d.mark ≡ 32 → d.limit < 256 ^ 4
        → HasPart d own from fed → IsFeedOf d files read (fed ++ more)
        → FeedBrings d own (fed ++ more) from read }
{}

/// The whole feed of a station that was compacted brings a standby with another record 0 there too, where the checkpoint isn't
/// behind what the standby has come to.
pub fn a_whole_feed_brings_a_standby_through_a_compaction()
    ensures { (d : Directory) (own files : Files) (from read : State × ℕ × List ℕ) (fed : List ℕ)
        → length d.mark ≡ 32 → d.limit < 256 ^ 4 → IsOvertaken d own files from
        → IsFeedOf d files read fed → FeedBrings d own fed from read }
{}

/// What is said to a standby that has a part of the journal stands in the feed behind a front that ends with that standby's last
/// seal: the front and what is said are the whole feed.
pub fn what_a_standby_lacks_ends_the_feed()
    ensures { (v : Version) (mark bytes last left : List ℕ) (used : ℕ)
        → found_since v mark bytes used last ≡ Some left
        → HasFront v mark bytes (held v last) left }
{}

/// What a standby has of a journal and what is said to it are the station's feed: what `ship` would give of the standby's own
/// journal is the front in front of what is said. No two records that aren't the same may have one seal.
pub fn what_a_standby_has_and_what_it_lacks_are_the_feed()
    ensures { (d : Directory) (own files : Files) (fed whole left : List ℕ)
        → IsFoundBehind d own files fed whole left → whole ≡ fed ++ left }
{}
