// Flows of a plant, whole or in fractions: balance, cost, groups, classes, forests and the test, as definitions with their laws.
// No function stands here.
#![tactic(auto)]

use plant_def::limits::{MAX_STREAMS, PLACES};

// The class of a stream. A (a redundant meter), R (a non-redundant meter), G (observable), W (unobservable).
#[derive(Clone, Copy)]
pub enum Class {
    Adjusted,
    AsRead,
    Given,
    Withheld,
}

// The streams that count where groups are formed.
#[derive(Clone, Copy)]
pub enum Which {
    Every,
    Unmetered,
}

// The labels by the unmetered streams; the label that each stream takes away, 0 where it takes none; and the bits of those
// that lie on a loop, bit 0 being set.
#[derive(Clone, Copy)]
pub struct Bridges {
    pub labels: [u8; PLACES],
    pub taken: [u8; MAX_STREAMS],
    pub looped: u64,
}
