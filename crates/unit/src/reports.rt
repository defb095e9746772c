// Reports that arrive.
ghost use Rattle.std.specs.Prelude.{◌≡◌, Decides};
ghost use Rattle.base.specs.Asked.{Asked};
ghost use Rattle.unit.specs.States.{means};
ghost use Rattle.unit.specs.Reported.{filed, report_of};
ghost use Rattle.unit.specs.Rules.{report_fault, on_report};

use crate::cells::{row_in, set_in};
use crate::fault::UnitFault;
use crate::state::ControlUnit;
use base::{UNIT_COUNT, VIEW_COUNT};
use rows::Row;

// Are these the rows that are kept of the sender?
fn same_report(
    grid: &[[Option<Row>; UNIT_COUNT]; VIEW_COUNT],
    sender: u32,
    rows: &[Option<Row>; VIEW_COUNT],
) -> bool
    ensures { Decides result (report_of sender grid.now ≡ rows.now) }
{
    grid.iter()
        .zip(rows)
        .all(|(kept, row)| row_in(kept, sender) == *row)
}

// The rows of a report are stored under its sender.
fn file_report(
    grid: &mut [[Option<Row>; UNIT_COUNT]; VIEW_COUNT],
    sender: u32,
    rows: &[Option<Row>; VIEW_COUNT],
)
    ensures { grid.new ≡ filed sender rows.now grid.old }
{
    for (v, row) in rows.iter().enumerate() {
        set_in(&mut grid[v], sender, *row);
    }
}

impl ControlUnit {
    // Is the report for the unit's view, and does it equal the one that is kept of the sender, if any?
    pub(crate) fn check_report(
        &self,
        sender: u32,
        view: u32,
        rows: &[Option<Row>; VIEW_COUNT],
    ) -> Result<(), UnitFault>
        ensures { Asked (report_fault sender view rows.now (means self.now)) result }
    {
        if view != self.view {
            return Err(UnitFault::ReportForOther(sender));
        }
        if sets::has(self.reported, sender) && !same_report(&self.reports, sender, rows) {
            return Err(UnitFault::OtherReport(sender));
        }
        Ok(())
    }

    // The report is kept.
    pub(crate) fn keep_report(&mut self, sender: u32, rows: &[Option<Row>; VIEW_COUNT])
        ensures { means self.new ≡ on_report sender rows.now (means self.old) }
    {
        self.reported = sets::with(self.reported, sender);
        file_report(&mut self.reports, sender, rows);
    }
}
