// One unit of several acts, and what it sends goes out.
#![tactic(auto)]

mod acting;
mod letters;
mod world;

pub use world::World;
