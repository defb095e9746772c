// Whether a wire can be made in the memory handed in.
ghost use Rattle.base.specs.Asked.{Asked};
ghost use Rattle.wire.specs.Making.{make_fault};

use crate::fault::WireFault;
use base::UNITS;

// The five numbers come together nowhere else. Asked by every maker: are units and places within bounds, and are there as many slots as are needed for them?
pub fn ask_memory(
    most: u32,
    units: u32,
    places: u32,
    needed: usize,
    slots: usize,
) -> Result<(), WireFault>
    ensures { Asked (make_fault most units places needed slots) result }
{
    if (1..=UNITS).contains(&units) && (1..=most).contains(&places) && needed <= slots {
        Ok(())
    } else {
        Err(WireFault::BadMemory)
    }
}
