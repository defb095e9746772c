// What a passed table answers.
ghost use Rattle.std.specs.Prelude.{◌≡◌, ◌≤◌, length, Decides, MatchOption};
ghost use Rattle.base.specs.Limits.{units_most, quorums_most};
ghost use Rattle.sets.specs.Sets.{Has, Bearable, Basic, Large};
ghost use Rattle.table.specs.Tables.{Proper, IsQuorum, quorum_at};
ghost use Rattle.table.specs.Means.{means};

use crate::passed::Passed;
use crate::quorum::Quorum;

impl<'a> Passed<'a> {
    // How many units there are; a passed table has one to 16.
    pub fn units(&self) -> u32
        ensures is { result ≡ (means self.now).units }
        ensures some { 1 ≤ result }
        ensures few { result ≤ units_most }
    {
        self.table.units
    }

    // The listed fault sets.
    pub fn faults(&self) -> &'a [u16]
        ensures { result.now ≡ (means self.now).faults }
    {
        self.table.faults
    }

    // The listed quorums; a passed table has no more than 32.
    pub fn quorums(&self) -> &'a [Quorum]
        ensures is { result.now ≡ (means self.now).quorums }
        ensures few { length result.now ≤ quorums_most }
    {
        self.table.quorums
    }

    // The units and the class of the quorum at a place, or none where no quorum is listed there.
    pub fn quorum(&self, place: u32) -> Option<Quorum>
        ensures { MatchOption result (IsQuorum (means self.now) place → ⊥)
            (λ q. IsQuorum (means self.now) place × (q ≡ quorum_at (means self.now) place)) }
    {
        self.quorums().get(place as usize).copied()
    }

    // The units of the quorum at a place; none where no quorum is listed there.
    pub fn units_of(&self, place: u32) -> u16
        ensures { result ≡ (quorum_at (means self.now) place).set }
    {
        self.quorum(place).map_or(0, |quorum| quorum.set)
    }

    // How many quorums are listed.
    pub fn quorum_count(&self) -> u32
        ensures is { result ≡ length (means self.now).quorums }
        ensures few { result ≤ quorums_most }
    {
        self.quorums().len() as u32
    }

    // Does the set lie inside one listed fault set?
    pub fn bearable(&self, s: u16) -> bool
        ensures { Decides result (Bearable (means self.now).faults (Has s)) }
    {
        sets::bearable(self.faults(), s)
    }

    // Does it lie inside none?
    pub fn basic(&self, s: u16) -> bool
        ensures { Decides result (Basic (means self.now).faults (Has s)) }
    {
        sets::basic(self.faults(), s)
    }

    // Do no two listed fault sets cover it?
    pub fn large(&self, s: u16) -> bool
        ensures { Decides result (Large (means self.now).faults (Has s)) }
    {
        sets::large(self.faults(), s)
    }
}
