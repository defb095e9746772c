// The state of a control unit.
ghost use Rattle.std.specs.Prelude.{◌<◌};
ghost use Rattle.base.specs.Limits.{views};

use crate::announcement::Announcement;
use base::{UNIT_COUNT, VIEW_COUNT};
use rows::Row;
use ticket::Writing;

// Its view; its own row of each view; its put of this view; the rows heard, by view and sender;
// the senders whose report of this view is kept, and the rows of those reports, by view and sender; its announcement.
// A mask beside the rows, and no Option around each report: a quorum is asked in one test of the mask, and the choice reads the rows by view.
#[derive(Drop)]
pub struct ControlUnit {
    pub(crate) view: u32,
    pub(crate) own: [Option<Row>; VIEW_COUNT],
    pub(crate) put: Option<Writing>,
    pub(crate) heard: [[Option<Row>; UNIT_COUNT]; VIEW_COUNT],
    pub(crate) reported: u16,
    pub(crate) reports: [[Option<Row>; UNIT_COUNT]; VIEW_COUNT],
    pub(crate) announced: Option<Announcement>,
    ghost in_view: { view < views },
}
