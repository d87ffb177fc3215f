// Plant files: a plant's units and streams, read from bytes and written to them. What a call promises that reads a file and writes
// a plant file from it. One function stands here: the record of an unmetered stream.
#![tactic(auto)]

pub mod limits;
pub mod refusal;
pub mod streams;

// A stream from one place to another: metered, with its weight and its reading, or unmetered, with both 0. A metered
// stream may have a range, from low to high; where there is none, low and high are 0.
#[derive(Clone, Copy)]
pub struct Stream {
    pub from: u8,
    pub to: u8,
    pub metered: bool,
    pub ranged: bool,
    pub weight: u16,
    pub reading: i32,
    pub low: i32,
    pub high: i32,
}

// A plant: its units, how many streams it lists, and their records as read; those past the count are empty.
#[derive(Clone, Copy)]
pub struct Plant {
    pub units: u8,
    pub count: u8,
    pub streams: [Stream; limits::MAX_STREAMS],
}
