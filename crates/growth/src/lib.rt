// How a row grows by what was heard in its view, and what may be announced.
#![tactic(auto)]

mod growing;
mod laws;

pub use growing::{grow, least_rule};
pub use laws::{grown_row_stays, grown_set_is_heard_entire, least_rule_is_least};
