// Laws of the check, each the contract of a function.
ghost use Rattle.table.specs.Laws.{FaultIsOne, ProperHasNoFault};
ghost use Rattle.table.specs.Samples.{SamplesHold};
ghost use Rattle.table.specs.Tables.{Proper};
ghost use Rattle.table.specs.Means.{means};

use crate::passed::Passed;

// A table has one fault at most.
pub fn fault_is_one()
    ensures { FaultIsOne }
{}

// A table that passes has no fault.
pub fn proper_has_no_fault()
    ensures { ProperHasNoFault }
{}

// The worked samples pass or fail as they should.
pub fn samples_hold()
    ensures { SamplesHold }
{}

// What is held of a passed table, by its type alone.
pub fn passed_is_proper(passed: &Passed<'_>)
    ensures { ∥ Proper (means passed.now) ∥₁ }
{
    passed.table();
}
