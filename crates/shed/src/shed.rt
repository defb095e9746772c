// A shed.
use acting::World;
use std::marker::PhantomData;
use wire::Wire;

// A world whose tickets are of one kind.
#[derive(Drop)]
pub struct Shed<'a, T, W: Wire> {
    pub(crate) world: World<'a, W>,
    pub(crate) kind: PhantomData<T>,
}
