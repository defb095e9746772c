// Bytes that are short enough for a packet.
ghost use Rattle.std.specs.Prelude.{◌≡◌, ◌<◌, ◌≤◌, length, MatchOption};
ghost use Rattle.base.specs.Limits.{packet_bytes};

use base::PACKET_BYTES;

#[derive(Clone, Copy)]
pub struct Packet<'a> {
    pub bytes: &'a [u8],
    ghost short: { length bytes.now ≤ packet_bytes },
}

impl<'a> Packet<'a> {
    // The packet with these bytes; none where they are too many.
    pub fn of(bytes: &'a [u8]) -> Option<Packet<'a>>
        ensures { MatchOption result (packet_bytes < length bytes.now) (λ packet. packet.bytes.now ≡ bytes.now) }
    {
        if bytes.len() > PACKET_BYTES {
            return None;
        }
        Some(Packet { bytes })
    }
}
