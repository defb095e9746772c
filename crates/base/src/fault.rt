// What a fault says: the number of the question, the layer that asks it, and the place.
ghost use Rattle.std.specs.Prelude.{◌≡◌};
ghost use Rattle.base.specs.declared.fault.FaultCode.{FaultCode};
ghost use Rattle.base.specs.Layers.{layer_name};

use std::fmt;

// The part of the library that asks a question.
#[derive(Clone, Copy, PartialEq, Eq, Debug)]
pub enum Layer {
    Table,
    Shed,
    Wire,
    Packet,
    Unit,
}

impl Layer {
    // The layer's name, as it is printed.
    pub fn name(self) -> &'static str
        ensures { result.now ≡ layer_name self }
    {
        match self {
            Layer::Table => "table",
            Layer::Shed => "shed",
            Layer::Wire => "wire",
            Layer::Packet => "packet",
            Layer::Unit => "unit",
        }
    }

    // The layer's refusal with a number, at a place.
    pub fn refusal(self, number: u32, place: usize) -> FaultCode
        ensures { result ≡ record { number = number; layer = self; place = place } }
    {
        FaultCode {
            number,
            layer: self,
            place,
        }
    }
}

impl fmt::Display for Layer {
    fn fmt<W: fmt::Write>(&self, f: &mut fmt::Formatter<W>) -> fmt::Result {
        f.write_str(self.name())
    }
}

// A refusal by its number, its layer and its place.
#[derive(Clone, Copy, PartialEq, Eq, Debug)]
pub struct FaultCode {
    pub number: u32,
    pub layer: Layer,
    pub place: usize,
}

impl fmt::Display for FaultCode {
    fn fmt<W: fmt::Write>(&self, f: &mut fmt::Formatter<W>) -> fmt::Result {
        write!(
            f,
            "fault {} of the {}, place {}",
            self.number, self.layer, self.place
        )
    }
}

// A layer's fault. `says` is the one definition of what each case stands for.
pub trait Fault {
    ghost says: { Self → FaultCode };

    fn code(self) -> FaultCode
        ensures { result ≡ says self };
}
