// Worked runs of four units, as theorems: what the agreement theorem speaks of does happen.
#![tactic(auto)]

ghost use Rattle.agreement_samples.specs.Samples.{ThreeRules, FalseReporterTears};

// In one run three units announce one ticket, each by another rule.
pub fn each_rule_announces()
    ensures { ThreeRules }
{}

// A false unit among a quorum's reporters can tear the choice.
pub fn false_reporter_tears()
    ensures { FalseReporterTears }
{}
