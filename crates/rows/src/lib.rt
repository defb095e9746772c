// Rows: what a unit says of one view, what is asked of a row, and which units said such a row.
#![tactic(auto)]

mod asked;
mod row;
mod rule;
mod said;

pub use asked::Test;
pub use row::Row;
pub use rule::{Rule, ranked, test_of};
pub use said::senders;
pub use sets::{has_place, some_place};
