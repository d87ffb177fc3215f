// Meters to buy: definitions and laws. No function stands here.
#![tactic(auto)]

use plant_def::limits::MAX_STREAMS;

// The greatest price.
pub const MAX_PRICE: u32 = 1_000_000;

// What is bought: how many streams are to be metered, their numbers in rising order with zeros after them, and what they cost
// together.
#[derive(Clone, Copy)]
pub struct Bought {
    pub count: u8,
    pub streams: [u8; MAX_STREAMS],
    pub price: u32,
}

// What the call with a lent slice hands over beside the slice.
// Stays a number: what the exported call hands to C.
#[derive(Clone, Copy)]
pub struct Handed {
    pub number: u8,
    pub count: usize,
    pub price: u32,
}
