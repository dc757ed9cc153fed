// Document 01 as definitions: they stand in specs/, and there is no code. Here are only the types that the definitions share with it.
// The contracts of the other crates cite these definitions, and `laws` proves what holds of them.
#![tactic(auto)]

// How a sample is held to the threshold.
#[derive(Clone, Copy)]
pub enum Rule {
    // its value is at least the threshold
    AtLeast,
    // its value is more than the threshold
    MoreThan,
}

// What decides whether a sample is above.
#[derive(Clone, Copy)]
pub struct Level {
    pub threshold: f64,
    pub rule: Rule,
}

// A side of a cell: document 01's L, R, T and B.
#[derive(Clone, Copy)]
pub enum Side {
    Left,
    Right,
    Top,
    Bottom,
}
