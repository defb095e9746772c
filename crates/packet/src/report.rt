// The entries of a report, one by one.
ghost use Rattle.std.specs.Prelude.{◌≡◌, length, None, slice_index_or};
ghost use Rattle.packet.specs.Said.{entries_of, padded};

use crate::entries::Entries;
use crate::message::Report;
use rows::Row;

impl<'a> Report<'a> {
    // The entries, from the first on.
    fn iter(&self) -> Entries<'a>
        ensures { (result.bytes.now ≡ self.now.entries.now) × (result.at ≡ 0) × (result.left ≡ self.now.view) }
    {
        Entries {
            bytes: self.entries(),
            at: 0,
            left: self.view(),
        }
    }

    // The sender's row of a view below the report's, if it has one there.
    pub fn entry(&self, view: u32) -> Option<Row>
        ensures { result ≡ slice_index_or (entries_of self.now) view None }
    {
        // at and above the report's view no entry is walked
        if view >= self.view() {
            return None;
        }
        self.iter()
            .nth(view as usize)
            .flatten()
            .map(|place| place.row())
    }

    // The sender's row of each view from 0 on; none at and above the report's view.
    pub fn copy_to(&self, rows: &mut [Option<Row>])
        ensures { rows.new ≡ padded (length rows.old) (entries_of self.now) }
    {
        let mut entries = self.iter();
        for row in rows.iter_mut() {
            *row = entries.next().flatten().map(|place| place.row());
        }
    }
}
