// Laws of growth and announcement, each the contract of a function.
ghost use Rattle.growth.specs.Laws.{GrownSetIsHeardEntire, GrownRowStays, LeastRuleIsLeast};

// The grown set has just the listed quorums that were heard entire with the ticket.
pub fn grown_set_is_heard_entire()
    ensures { GrownSetIsHeardEntire }
{}

// Growing a grown row changes nothing.
pub fn grown_row_stays()
    ensures { GrownRowStays }
{}

// The rule that is given is met, and no lesser one is.
pub fn least_rule_is_least()
    ensures { LeastRuleIsLeast }
{}
