// Sheets: the balance of a plant, its bytes and what the sheet call promises, as definitions with their laws.
#![tactic(auto)]

use crate::kinds::OFFICES;
use flow_def::Class;
use plant_def::limits::{MAX_STREAMS, PLACES};

pub mod blanks;
pub mod kinds;

// A stream on a balance: its class and its flow, 0 where it is withheld.
#[derive(Clone, Copy)]
pub struct Entry {
    pub class: Class,
    pub flow: i64,
}

// The balance of a plant: an entry for each stream, empty past the last one, and cost, degrees and verdict.
#[derive(Clone, Copy)]
pub struct Balance {
    pub streams: [Entry; MAX_STREAMS],
    pub cost: u64,
    pub degrees: u8,
    pub verdict: u8,
}

// What is found of a plant: its balance, or none and an overfull set of places, marked.
#[derive(Clone, Copy)]
pub struct Outcome {
    pub found: bool,
    pub balance: Balance,
    pub marked: [bool; PLACES],
}

// What the sheet call hands over: 0, the bytes written and the offices' last sheet numbers, the calling office's one higher, which
// is the sheet's; or a refusal number, 0 and the last sheet numbers as they were. Places are marked by refusal 19 alone.
#[derive(Clone, Copy)]
pub struct Sheet {
    pub number: u8,
    pub written: usize,
    pub lasts: [u32; OFFICES],
    pub marked: [bool; PLACES],
}

// The total of a sheet: its kind, the office that drew it, its number, the cost, the degrees and the verdict. A total without an
// office is that of office 0.
#[derive(Clone, Copy)]
pub struct Total {
    pub kind: u8,
    pub office: u8,
    pub sheet: u32,
    pub cost: u64,
    pub degrees: u8,
    pub verdict: u8,
}

// A sheet as it is read: how many streams it lists, an entry for each, the blank past the last one, and the total.
#[derive(Clone, Copy)]
pub struct SheetRead {
    pub count: u8,
    pub streams: [Entry; MAX_STREAMS],
    pub total: Total,
}

// A record of a sheet: a stream's entry with the record's size, or the total.
#[derive(Clone, Copy)]
pub enum SheetRecord {
    Listed { entry: Entry, size: usize },
    Ended(Total),
}
