// Samples of plans that are read, and of others that are not.
ghost use Rattle.std.specs.Prelude.{◌≡◌, ℕ, true, false, not, [], ◌∷◌, is_some, is_ok};
ghost use Rattle.ticket.specs.Samples.{EndsSamples, ends_samples, with_ends};
ghost use Rattle.ticket.specs.Plans.{plan_refuses};

use crate::bytes::bytes_of;
use crate::plan::Plan;
use crate::reading::read;
use crate::writing::Writing;

// Whether the rose damask's plan with so many ends is read from its sixteen bytes.
fn reads_ends(ends: u32) -> bool
    ensures { result ≡ not (is_some (plan_refuses (with_ends ends))) }
{
    let bytes = bytes_of(Writing {
        a: 1987,
        b: ends,
        c: 3200,
        d: 1,
    });
    read::<Plan>(&bytes).is_ok()
}

// Reads the samples: 1 and 32,768 ends are read, 0 and 32,769 are not.
pub fn ends_samples() -> [bool; 4]
    ensures { (result ≡ true ∷ true ∷ false ∷ false ∷ []) × (EndsSamples ends_samples) }
{
    [1, 32768, 0, 32769].map(reads_ends)
}
