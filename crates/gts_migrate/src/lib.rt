//! A journal taken over under a directory that takes over from its own: circuits may be added between two runs, and most of
//! what stands in a directory may change. What waits on circuits that are closed then is refused, or dropped with a receipt each.
#![tactic(auto)]

mod bringing;
mod dropping;
mod fault;
mod laws;
mod leaving;
mod migrating;
mod preparing;
mod rewriting;
mod trial;
mod waiting;

pub use fault::MigrateFault;
pub use laws::a_circuit_goes_on;
pub use migrating::migrate;
pub use trial::{Trial, try_over};
pub use waiting::Waiting;
