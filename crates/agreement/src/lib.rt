// Agreement over every run of the rules, for every transport; the theorems are the contracts.
#![tactic(auto)]

ghost use Rattle.agreement.specs.Agreed.{RunsAgree, RunsKeepTheInvariant};

// Every accepted act keeps the invariant.
pub fn runs_keep_the_invariant()
    ensures { RunsKeepTheInvariant }
{}

// Announced tickets agree, later views keep them, a sound quorum is not torn.
pub fn announced_tickets_agree()
    ensures { RunsAgree }
{}
