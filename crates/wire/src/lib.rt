// What a wire is, and what is written once for every wire.
#![tactic(auto)]

mod answers;
mod fault;
mod laws;
mod making;
mod over;
mod packet;
mod quiet;
mod send;
mod slot;
mod store;
mod wire;

pub use answers::{Counts, Found, Tally};
pub use fault::WireFault;
pub use laws::runs_keep_packets;
pub use making::ask_memory;
pub use packet::Packet;
pub use quiet::nothing_waits;
pub use send::send_all;
pub use slot::Slot;
pub use store::Store;
pub use wire::Wire;
