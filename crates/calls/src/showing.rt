// Writings that units hold, shown as tickets of a kind.
ghost use Rattle.std.specs.Prelude.{◌≡◌, Some, None, MatchResult};
ghost use Rattle.table.specs.Means.{means as table_of};
ghost use Rattle.unit.specs.Reported.{shown_choice};
ghost use Rattle.calls.specs.Worlds.{states_of, state_at};
ghost use Rattle.calls.specs.Calls.{show_fault, choice_fault, Shows, ShowsChoice};

use crate::fault::ShedFault;
use crate::shown::Shown;
use choice::Choice;
use table::Passed;
use ticket::{Ticket, Writing};
use unit::{Announcement, ControlUnit};

// What one of several units announced; past the last, what a fresh one did: nothing.
pub fn announcement_at(units: &[ControlUnit], unit: u32) -> Option<Announcement>
    ensures { result ≡ (state_at (states_of units.now) unit).announced }
{
    units.get(unit as usize)?.announcement()
}

// The choice of one of several units from the reports of the quorum at a place; past the last, that of a fresh one.
pub fn choice_at(
    units: &[ControlUnit],
    passed: &Passed<'_>,
    unit: u32,
    quorum: u32,
) -> Option<Choice<Writing>>
    ensures { result ≡ shown_choice (table_of passed.now) (state_at (states_of units.now) unit) quorum }
{
    match units.get(unit as usize) {
        Some(unit) => unit.choice(passed, quorum),
        None => ControlUnit::fresh().choice(passed, quorum),
    }
}

// An announcement.
pub fn show<T: Ticket>(announced: Option<Announcement>) -> Result<Option<Shown<T>>, ShedFault>
    ensures { MatchResult result (λ v. (show_fault T.refuses announced ≡ None) × Shows T.written announced v) (λ e. show_fault T.refuses announced ≡ Some e) }
{
    let Some(found) = announced else {
        return Ok(None);
    };
    let ticket = T::of_writing(found.ticket)?;
    Ok(Some(Shown {
        ticket,
        view: found.view,
        rule: found.rule,
    }))
}

// A choice.
pub fn show_choice<T: Ticket>(
    chosen: Option<Choice<Writing>>,
) -> Result<Option<Choice<T>>, ShedFault>
    ensures { MatchResult result (λ v. (choice_fault T.refuses chosen ≡ None) × ShowsChoice T.written chosen v) (λ e. choice_fault T.refuses chosen ≡ Some e) }
{
    match chosen {
        None => Ok(None),
        Some(Choice::Free) => Ok(Some(Choice::Free)),
        Some(Choice::Torn) => Ok(Some(Choice::Torn)),
        Some(Choice::Only(writing)) => Ok(Some(Choice::Only(T::of_writing(writing)?))),
    }
}
