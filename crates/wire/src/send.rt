// A send to all, over any wire.
ghost use Rattle.std.specs.Result.{MatchResult};
ghost use Rattle.wire.specs.Calls.{Refused};
ghost use Rattle.wire.specs.Sends.{SentAll, send_fault};

use crate::answers::Tally;
use crate::fault::WireFault;
use crate::wire::Wire;
use base::PACKET_BYTES;

// Posts one packet to the units 0 to n - 1 in order; a post refused for want of a place counts as lost.
pub fn send_all<W: Wire>(wire: &mut W, from: u32, n: u32, packet: &[u8]) -> Result<Tally, WireFault>
    ensures { MatchResult result (λ tally. SentAll W.rule (W.means wire.old) from n packet.now tally (W.means wire.new)) (λ e. Refused (send_fault (W.means wire.old) from n packet.now) e (W.means wire.old) (W.means wire.new)) }
{
    let served = wire.served();
    if from >= served {
        return Err(WireFault::NotServed(0));
    }
    if n > served {
        return Err(WireFault::NotServed(served));
    }
    if packet.len() > PACKET_BYTES {
        return Err(WireFault::TooLong(0));
    }
    // A loop: each post changes the wire, and of a closure that changes what it holds a proof learns nothing.
    let mut laid = 0;
    let mut lost = 0;
    for to in 0..n {
        match wire.post(from, to, packet) {
            Ok(()) => laid += 1,
            Err(_) => lost += 1,
        }
    }
    Ok(Tally { laid, lost })
}
