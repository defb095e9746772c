// What a unit shows of its state.
ghost use Rattle.std.specs.Prelude.{◌≡◌, ◌<◌};
ghost use Rattle.base.specs.Limits.{views};
ghost use Rattle.table.specs.Means.{means as table_of};
ghost use Rattle.unit.specs.States.{means, own_at, heard_at, below};
ghost use Rattle.unit.specs.Reported.{shown_choice};
ghost use Rattle.unit.specs.Letters.{stage_of};

use crate::announcement::Announcement;
use crate::cells::{cell_of, row_in};
use crate::stage::Stage;
use crate::state::ControlUnit;
use base::VIEW_COUNT;
use choice::Choice;
use rows::Row;
use table::Passed;
use ticket::Writing;

impl ControlUnit {
    // The view that the unit is in.
    pub fn view(&self) -> u32
        ensures is { result ≡ (means self.now).view }
        ensures low { result < views }
    {
        self.view
    }

    // The own row of a view.
    pub fn own_row(&self, v: u32) -> Option<Row>
        ensures { result ≡ own_at (means self.now) v }
    {
        row_in(&self.own, v)
    }

    // The own row of the unit's view.
    pub(crate) fn own_in_view(&self) -> Option<Row>
        ensures { result ≡ own_at (means self.now) (means self.now).view }
    {
        self.own[self.view as usize]
    }

    // How far the own row of the unit's view has come.
    pub fn stage(&self) -> Stage
        ensures { result ≡ stage_of (own_at (means self.now) (means self.now).view) }
    {
        self.own_in_view().into()
    }

    // The put of this view.
    pub fn put_ticket(&self) -> Option<Writing>
        ensures { result ≡ (means self.now).put }
    {
        self.put
    }

    // What the unit announced, if it did.
    pub fn announcement(&self) -> Option<Announcement>
        ensures { result ≡ (means self.now).announced }
    {
        self.announced
    }

    // What was heard of a sender in a view.
    pub fn heard_row(&self, v: u32, sender: u32) -> Option<Row>
        ensures { result ≡ heard_at (means self.now) v sender }
    {
        cell_of(&self.heard, v, sender)
    }

    // The own rows of the views below this one, none at and above it: what the unit reports for its view.
    pub fn report(&self) -> [Option<Row>; VIEW_COUNT]
        ensures { result ≡ below (means self.now).view (means self.now).own }
    {
        let mut rows = self.own;
        rows[self.view as usize..].fill(None);
        rows
    }

    // The choice from the kept reports of the quorum at a place; none where the quorum is not listed or not fully reported.
    pub fn choice(&self, passed: &Passed<'_>, q: u32) -> Option<Choice<Writing>>
        ensures { result ≡ shown_choice (table_of passed.now) (means self.now) q }
    {
        passed.quorum(q)?;
        if self.fully(passed, q) {
            Some(self.choice_of(passed, q))
        } else {
            None
        }
    }
}
