// A ticket's writing.
use std::fmt;

// Sixteen bytes as four words: how any kind of ticket is stored.
#[derive(Clone, Copy, PartialEq, Eq, Debug)]
pub struct Writing {
    pub a: u32,
    pub b: u32,
    pub c: u32,
    pub d: u32,
}

impl fmt::Display for Writing {
    fn fmt<W: fmt::Write>(&self, f: &mut fmt::Formatter<W>) -> fmt::Result {
        write!(f, "{} {} {} {}", self.a, self.b, self.c, self.d)
    }
}
