// The kinds of packets.
ghost use Rattle.std.specs.Prelude.{◌≡◌, Some, MatchResult};
ghost use Rattle.packet.specs.Kinds.{kind_word};
ghost use Rattle.packet.specs.Questions.{kind_fault};

use crate::fault::PacketFault;

// A packet's kind, told by its first word.
#[derive(Clone, Copy, PartialEq, Eq, Debug)]
pub enum Kind {
    Put = 1,
    Row = 2,
    Report = 3,
}

impl TryFrom<u32> for Kind {
    type Error = PacketFault;

    ghost try_from_gives = { λ word r. MatchResult r (λ kind. kind_word kind ≡ word) (λ e. kind_fault word ≡ Some e) };

    fn try_from(word: u32) -> Result<Kind, PacketFault> {
        match word {
            1 => Ok(Kind::Put),
            2 => Ok(Kind::Row),
            3 => Ok(Kind::Report),
            _ => Err(PacketFault::Kind),
        }
    }
}

impl From<Kind> for u32 {
    ghost from_gives = { λ kind word. word ≡ kind_word kind };

    fn from(kind: Kind) -> u32 {
        kind as u32
    }
}
