// A shed's world: its table, its false set, its units and its wire.
ghost use Rattle.std.specs.Prelude.{◌≡◌, ◌≤◌, length};
ghost use Rattle.base.specs.Limits.{units_most};

use table::Passed;
use unit::ControlUnit;
use wire::Wire;

// Units and a wire that are lent. There is memory for the table's units, which are few, and the wire serves just them.
#[derive(Drop)]
pub struct World<'a, W: Wire> {
    pub table: Passed<'a>,
    pub false_set: u16,
    pub units: &'a mut [ControlUnit],
    pub wire: &'a mut W,
    ghost few: { table.units ≤ units_most },
    ghost roomy: { table.units ≤ length units.now },
    ghost serves: { (W.means wire.now).served ≡ table.units },
}
