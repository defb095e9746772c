// What a unit does of itself, beside puts: it begins, raises its view and repeats.
ghost use Rattle.std.specs.Prelude.{◌≡◌, Some, None, MatchResult};
ghost use Rattle.table.specs.Means.{means as table_of};
ghost use Rattle.unit.specs.States.{means, fresh as fresh-state};
ghost use Rattle.unit.specs.Rules.{raise_fault, on_raise};
ghost use Rattle.unit.specs.Sending.{sends_report, repeats};

use crate::fault::UnitFault;
use crate::letter::Sends;
use crate::state::ControlUnit;
use base::{UNIT_COUNT, VIEW_COUNT, VIEWS};

impl ControlUnit {
    // A unit that has done and heard nothing.
    pub fn fresh() -> ControlUnit
        ensures { means result ≡ fresh-state }
    {
        ControlUnit {
            view: 0,
            own: [None; VIEW_COUNT],
            put: None,
            heard: [[None; UNIT_COUNT]; VIEW_COUNT],
            reported: 0,
            reports: [[None; UNIT_COUNT]; VIEW_COUNT],
            announced: None,
        }
    }

    // Raises the view to w. The report of the own rows below w goes out.
    pub fn raise(&mut self, me: u32, w: u32) -> Result<Sends, UnitFault>
        ensures { MatchResult result
            (λ sends. (raise_fault me w (means self.old) ≡ None) × (means self.new ≡ on_raise w (means self.old)) × (sends ≡ sends_report))
            (λ e. (raise_fault me w (means self.old) ≡ Some e) × (means self.new ≡ means self.old)) }
    {
        if w <= self.view || w >= VIEWS {
            return Err(UnitFault::NotAbove(me));
        }
        self.view = w;
        self.put = None;
        self.reported = 0;
        self.reports = [[None; UNIT_COUNT]; VIEW_COUNT];
        Ok(Sends::REPORT)
    }

    // Sends again the put and the own row of this view and, above view 0, the report, as far as they exist.
    pub fn repeat(&self) -> Sends
        ensures { result ≡ repeats (means self.now) }
    {
        Sends {
            put: self.put.is_some(),
            row: self.own_in_view().is_some(),
            report: self.view > 0,
        }
    }
}
