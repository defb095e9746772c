// The shed: every call is total, and says what it did.
#![tactic(auto)]

mod calling;
mod making;
mod shed;

pub use shed::Shed;
