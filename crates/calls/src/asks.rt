// What a call asks first.
ghost use Rattle.std.specs.Prelude.{◌<◌, IfOk};
ghost use Rattle.base.specs.Asked.{Asked};
ghost use Rattle.calls.specs.Worlds.{named, ask_sound, ask_forged};

use crate::fault::ShedFault;
use sets::has;

// The units of a shed: how many there are, and which of them are false.
#[derive(Clone, Copy, PartialEq, Eq, Debug)]
pub struct Sides {
    pub units: u32,
    pub false_set: u16,
}

impl Sides {
    // A unit, sound or false: is there such a unit?
    pub fn ask_named(self, unit: u32) -> Result<(), ShedFault>
        ensures asked { Asked (named self.units unit) result }
        ensures there { IfOk result (λ _. unit < self.units) }
    {
        if unit >= self.units {
            return Err(ShedFault::NoUnit(unit));
        }
        Ok(())
    }

    // A unit that is to be worked with: is there such a unit, is it sound?
    pub fn ask_sound(self, unit: u32) -> Result<(), ShedFault>
        ensures asked { Asked (ask_sound self.units self.false_set unit) result }
        ensures there { IfOk result (λ _. unit < self.units) }
    {
        self.ask_named(unit)?;
        if has(self.false_set, unit) {
            return Err(ShedFault::WrongSide(unit));
        }
        Ok(())
    }

    // A forged packet: is there such a sender and such an addressee, is the sender false?
    pub fn ask_forged(self, sender: u32, to: u32) -> Result<(), ShedFault>
        ensures { Asked (ask_forged self.units self.false_set sender to) result }
    {
        self.ask_named(sender)?;
        self.ask_named(to)?;
        if !has(self.false_set, sender) {
            return Err(ShedFault::WrongSide(sender));
        }
        Ok(())
    }
}
