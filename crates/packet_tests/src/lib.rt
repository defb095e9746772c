// Tests of tickets and packets: writings and packets whose bytes and offsets are worked out by hand.
#![tactic(auto)]

#[cfg(test)]
mod damaged;
#[cfg(test)]
mod helpers;
#[cfg(test)]
mod written;
