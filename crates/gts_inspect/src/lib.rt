//! A directory looked at before it goes live: what is odd of it, in a stated order, and where a bulletin would go.
#![tactic(auto)]

mod circuits;
mod finding;
mod inspection;
mod limits;
mod patterns;
mod ports;
mod routing;
mod rules;
mod text;
mod worked;

pub use finding::{Finding, Key};
pub use inspection::inspect;
pub use limits::{FIRST_FREE_PORT, FIRST_SYSTEM_PORT, LAST_SYSTEM_PORT, limits_are_these_numbers};
pub use routing::{Route, route_of};
pub use text::{heading_of, inspection_text, route_text};
pub use worked::{
    a_bulletin_goes_by_all_rules_that_match, nothing_is_odd_of_a_usual_directory,
    what_is_odd_of_a_circuit_is_told, what_is_odd_of_a_rule_is_told,
};
