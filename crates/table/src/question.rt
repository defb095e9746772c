// The questions that a table is asked.

// What is asked of a table, in this order. Values and not closures: a question tells its places and its fault, and contracts name it.
#[derive(Clone, Copy)]
pub enum Question {
    Units,
    FaultSetCount,
    FaultSet,
    QuorumCount,
    Entry,
    Pairs(PairQuestion),
}

// What is asked of each pair of quorums, in this order.
#[derive(Clone, Copy)]
pub enum PairQuestion {
    Differ,
    First,
    Second,
    Third,
}
