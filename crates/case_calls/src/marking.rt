// The places that a call marks, tested by the definition: refusal 19 marks places that must take in more than they can let
// out, every other call none.
use case_files::cases::NO_CASE;
use num_lent::bits_of;
use plant_def::limits::{MAX_STREAMS, PLACES};
use plant_def::{Plant, Stream};
use solve_arcs::{high_of, low_of};
use solve_def::sizes::FLOW_SHIFT;

// 1 where a place is marked.
fn mark(bits: u64, place: u8) -> u64 {
    if 64 <= place {
        return 0;
    }
    (bits >> place) % 2
}

// What a stream adds to what the marked places take in beyond what they let out, in two's complement: its low where it comes in,
// less its high where it goes out. One without a range counts for more than all those with a range together.
fn across(bits: u64, s: Stream) -> u64 {
    let from = mark(bits, s.from);
    let to = mark(bits, s.to);
    if from == to {
        return 0;
    }
    if from < to {
        return low_of(s).wrapping_sub(FLOW_SHIFT);
    }
    FLOW_SHIFT.wrapping_sub(high_of(s))
}

// Streams past the count are empty, from 0 to 0, and cross no edge.
fn beyond(bits: u64, streams: [Stream; MAX_STREAMS]) -> u64 {
    let mut sum: u64 = 0;
    for s in &streams {
        sum = sum.wrapping_add(across(bits, *s));
    }
    sum
}

// Whether no place past the units is marked, and the sum is above 0.
fn overfull(bits: u64, p: Plant) -> bool {
    if mark_past(bits, p.units) {
        return false;
    }
    let sum = beyond(bits, p.streams);
    0 < sum && sum < FLOW_SHIFT
}

// Whether some place past the units is marked.
fn mark_past(bits: u64, units: u8) -> bool {
    units < 63 && bits >> (units + 1) != 0
}

// The answer of a call that returned this number on a plant file, where its marks, which stand in no case, are as they must be.
pub fn tested(answer: u64, number: u8, file: &[u8], marked: [bool; PLACES]) -> u64 {
    let bits = bits_of(marked);
    if number == 19 {
        return match plant_read::read_plant(file) {
            Ok(plant) if overfull(bits, plant) => answer,
            _ => NO_CASE,
        };
    }
    if bits == 0 { answer } else { NO_CASE }
}
