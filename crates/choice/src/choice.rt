// The choice.

// What may be put: any ticket, just one, or none. One shape for bare writings and for tickets of any kind.
#[derive(Clone, Copy, PartialEq, Eq, Debug)]
pub enum Choice<V> {
    // no ticket is live
    Free,
    // one ticket is
    Only(V),
    // more than one is
    Torn,
}
