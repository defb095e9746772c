// What the calls of a shed share: worlds, what each call did, faults, and the questions.
#![tactic(auto)]

mod asks;
mod fault;
mod making;
mod showing;
mod shown;

pub use asks::Sides;
pub use fault::ShedFault;
pub use making::ask_making;
pub use showing::{announcement_at, choice_at, show, show_choice};
pub use shown::Shown;
