// Sheets drawn up elsewhere, as definitions with their laws. No function stands here.
#![tactic(auto)]

use plant_def::limits::PLACES;

// The limit of a place's number.
pub const NUMBER_LIMIT: u64 = 1_000_000_000_000_000_000;

// Numbers of the places: how many places there are, and a number for each of them, 0 past them.
#[derive(Clone, Copy)]
pub struct PlaceNumbers {
    pub count: u8,
    pub numbers: [i64; PLACES],
}
