// The cheapest balanced flow, computed: search, augmentation and solver as definitions with their laws, and how many improvements it
// makes.
#![tactic(auto)]

use plant_def::limits::{MAX_STREAMS, PLACES};

pub mod sizes;

// What an improvement is to do: the place that it starts from, and the step.
#[derive(Clone, Copy)]
pub struct Quest {
    pub start: usize,
    pub delta: u64,
}

// A way to augment along: how many streams are remembered, the place that the way ends at, and the step.
#[derive(Clone, Copy)]
pub struct Route {
    pub len: usize,
    pub target: u8,
    pub delta: u64,
}

// The place visited last, its distance and the stream that led to it; and the fringe, a bit for each place: those to which a stream
// from a visited place leads, within the limit.
#[derive(Clone, Copy)]
pub struct Spot {
    pub place: usize,
    pub distance: u64,
    pub stream: u8,
    pub fringe: u64,
}

// The visited places; and for each place visited after the first, in order, the stream that led to it and the place.
#[derive(Clone, Copy)]
pub struct Tree {
    pub visited: [bool; PLACES],
    pub via: [u8; PLACES],
    pub ends: [u8; PLACES],
    pub len: usize,
}

// What a walk hands over: whether it visited a place that it looks for, its tree, the distances of visited places, and how far it
// came.
#[derive(Clone, Copy)]
pub struct Walked {
    pub found: bool,
    pub tree: Tree,
    pub dist: [u64; PLACES],
    pub reach: u64,
}

// What a search hands over: whether it visited a place that it looks for, and its tree.
#[derive(Clone, Copy)]
pub struct Searched {
    pub found: bool,
    pub tree: Tree,
}

// Potentials to begin with, and amounts for the unmetered streams; held shifted, as below.
#[derive(Clone, Copy)]
pub struct Hint {
    pub flows: [u64; MAX_STREAMS],
    pub potentials: [u64; PLACES],
}

// The amount of each stream, and the potential and the net of each place.
#[derive(Clone, Copy)]
pub struct State {
    pub flows: [u64; MAX_STREAMS],
    pub potentials: [u64; PLACES],
    pub nets: [u64; PLACES],
}

// How improvements from a place end: whether a set of places was found that must take in more than it can let out, and that set.
#[derive(Clone, Copy)]
pub struct Halt {
    pub full: bool,
    pub marked: [bool; PLACES],
}

// What the improvements from a place come to: how they end, and how many are made.
#[derive(Clone, Copy)]
pub struct Tried {
    pub full: bool,
    pub marked: [bool; PLACES],
    pub made: u64,
}

// How a phase ends: whether such a set was found, with the state.
#[derive(Clone, Copy)]
pub struct Ended {
    pub full: bool,
    pub state: State,
    pub marked: [bool; PLACES],
}

// The flow and the potentials that certify it; or, where none is found, a set of places that must take in more than it can let out.
// And how many improvements were made.
#[derive(Clone, Copy)]
pub struct Solved {
    pub found: bool,
    pub flows: [u64; MAX_STREAMS],
    pub potentials: [u64; PLACES],
    pub marked: [bool; PLACES],
    pub made: u64,
}
