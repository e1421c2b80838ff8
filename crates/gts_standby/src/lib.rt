//! A standby station: the feed of a journal, which one station says and another one takes into its own journal.
#![tactic(auto)]

mod adding;
mod ahead;
mod beginning;
mod comparing;
mod end;
mod fault;
mod fed;
mod following;
mod further;
mod gathering;
mod header;
mod laws;
mod passing;
mod piece;
mod records;
mod scanning;
mod shipping;
mod since;
mod standby;

pub use end::FollowEnd;
pub use fault::ShipFault;
pub use following::follow;
pub use laws::{
    a_front_of_a_feed_adds_a_front, a_front_of_a_feed_comes_to_a_front_of_the_history,
    a_whole_feed_brings_a_new_standby_to_the_station,
    a_whole_feed_brings_a_standby_that_has_a_part,
    a_whole_feed_brings_a_standby_through_a_compaction,
    what_a_standby_has_and_what_it_lacks_are_the_feed, what_a_standby_lacks_ends_the_feed,
};
pub use shipping::{ship, ship_since};
pub use since::Since;
