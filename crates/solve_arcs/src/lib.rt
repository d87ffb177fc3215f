// The streams in use as residual arcs, with marginal and reduced costs, in the numbers that the solver holds. Arcs are one array
// of bytes. Stream i has two, 2i + 1 forwards from its start to its end and 2i backwards. First, for each place, the arc of the
// last stream that starts or ends there; then for each arc the place that it leads to; then for each arc the next one of the place
// that it leaves; last, how many streams are in use. What is where is known here and nowhere else in code, and in
// specs/Cells.antt. The margin of an arc is its marginal cost: what one step more along it costs at the present amounts. Its
// reduced cost is that by the potentials of its two ends.
#![tactic(auto)]

ghost use Rattle.std.specs.Prelude.{◌≡◌, ◌-◌, ◌*◌, ◌≤◌, ◌+◌, ◌<◌, ℕ, get_or, length, set, true, false};
ghost use Rattle.plant_def.specs.Limits.{max_units, places, max_streams, max_weight};
ghost use Rattle.plant_def.specs.Within.{WithinStream};
ghost use Rattle.solve_def.specs.Sizes.{most_flow, most_pull, farthest, most_step, potential_shift};
ghost use Rattle.flow_def.specs.Certificate.{weight_of};
ghost use Rattle.solve_def.specs.Held.{shifted, reading_of, low_of, high_of};
ghost use Rattle.solve_arcs.specs.Cells.{to_cell, next_cell, count_of, margin_cells};
ghost use Rattle.solve_arcs.specs.Margins.{less_of, margin_by, margins_put, shut, reduced_cost};
ghost use Rattle.solve_arcs.specs.ArcNeeds.{Row, Marginable, Margined};

use plant_def::Stream;
use plant_def::limits::{MAX_STREAMS, MAX_WEIGHT, PLACES};
use solve_def::sizes::{FARTHEST, FLOW_SHIFT, MOST_FLOW};

// A stream's weight; an unmetered stream counts as one of weight 0.
pub fn weight_of(s: Stream) -> u64
    ensures { result ≡ weight_of s }
{
    if s.metered { s.weight as u64 } else { 0 }
}

// An amount, shifted.
fn hold(z: i32) -> u64
    ensures { (result ≡ shifted z) × (result ≤ most_flow) }
{
    (z as i64 + FLOW_SHIFT as i64) as u64
}

// The reading, shifted.
pub fn reading_of(s: Stream) -> u64
    ensures { (result ≡ reading_of s) × (result ≤ most_flow) }
{
    hold(s.reading)
}

// The least amount of a stream's range, shifted; 0 where it has none.
pub fn low_of(s: Stream) -> u64
    ensures { (result ≡ low_of s) × (result ≤ most_flow) }
{
    if s.metered {
        if s.ranged {
            return hold(s.low);
        }
    }
    0
}

// The greatest; MOST_FLOW where it has none.
pub fn high_of(s: Stream) -> u64
    ensures { (result ≡ high_of s) × (result ≤ most_flow) }
{
    if s.metered {
        if s.ranged {
            return hold(s.high);
        }
    }
    MOST_FLOW
}

// Weight times the reading.
pub fn pull_of_reading(s: Stream) -> u64
    requires { WithinStream max_units s }
    ensures { (result ≡ weight_of s * reading_of s) × (result ≤ most_pull) }
{
    weight_of(s) * reading_of(s)
}

pub const TO: usize = PLACES;

pub const NEXT: usize = TO + 2 * MAX_STREAMS;

pub const COUNT: usize = NEXT + 2 * MAX_STREAMS;

pub const ARCS: usize = COUNT + 1;

// No arc.
pub const NONE: usize = 2 * MAX_STREAMS;

// Four numbers for each stream: weight, twice the weight times the reading, low, high.
pub const ROWS: usize = 4 * MAX_STREAMS;

// A number for each arc: its marginal cost.
pub const MARGINS: usize = 2 * MAX_STREAMS;

// A byte as an index.
pub fn wide(b: u8) -> usize
    ensures { (result ≡ b) × (result < 256) }
{
    b as usize
}

// How many streams there are.
pub fn count_of(arcs: &[u8; ARCS]) -> usize
    ensures { result ≡ count_of arcs.now }
{
    wide(arcs[COUNT])
}

// The first arc of place u, NONE where there is none.
pub fn first_at(arcs: &[u8; ARCS], u: usize) -> usize
    requires { u < places }
    ensures { result ≡ get_or arcs.now u 0 }
{
    wide(arcs[u])
}

// The place that an arc leads to.
pub fn end_at(arcs: &[u8; ARCS], arc: usize) -> usize
    requires { arc < 2 * max_streams }
    ensures { result ≡ get_or arcs.now (to_cell + arc) 0 }
{
    wide(arcs[TO + arc])
}

// The next arc of the place that it leaves.
pub fn next_at(arcs: &[u8; ARCS], arc: usize) -> usize
    requires { arc < 2 * max_streams }
    ensures { result ≡ get_or arcs.now (next_cell + arc) 0 }
{
    wide(arcs[NEXT + arc])
}

// A margin z is held as z + LIFT; an arc that cannot be moved along has the margin SHUT.
const LIFT: u64 = 2 * (MAX_WEIGHT as u64 * MOST_FLOW);

const SHUT: u64 = 4_611_686_018_427_387_904;

// The lesser of two.
pub fn lesser(a: u64, b: u64) -> u64
    ensures { result ≡ less_of a b }
{
    a.min(b)
}

// The reduced cost of an arc of margin m, from a place of potential p to one of potential r; at least 0 and at most FARTHEST.
pub fn reduced_cost(m: u64, p: u64, r: u64) -> u64
    requires { (m ≤ shut) × (p ≤ potential_shift) × (r ≤ potential_shift) }
    ensures { (result ≡ reduced_cost m p r) × (result ≤ farthest) }
{
    lesser((m + p).saturating_sub(r + LIFT), FARTHEST)
}

// The margin of a stream forwards, by its weight, twice its weight times its reading, the greatest amount of its range and its amount.
fn rising(w: u64, q: u64, high: u64, x: u64, delta: u64) -> u64
    requires { (w ≤ max_weight) × (q ≤ 2 * most_pull) × (x ≤ most_flow) × (delta ≤ most_step) }
    ensures { (low : ℕ) → result ≡ margin_by w q low high true x delta }
{
    if x + delta <= high {
        return 2 * (w * x) + (w * delta + LIFT) - q;
    }
    SHUT
}

// Backwards.
fn falling(w: u64, q: u64, low: u64, x: u64, delta: u64) -> u64
    requires { (w ≤ max_weight) × (q ≤ 2 * most_pull) × (x ≤ most_flow) × (delta ≤ most_step) × (low ≤ most_flow) }
    ensures { (high : ℕ) → result ≡ margin_by w q low high false x delta }
{
    if low + delta <= x {
        return q + (w * delta + LIFT) - 2 * (w * x);
    }
    SHUT
}

// The margins of stream i at the amount x.
pub fn put_margins(rows: &[u64; ROWS], margins: &mut [u64; MARGINS], i: usize, x: u64, delta: u64)
    requires { Row rows.now i × (x ≤ most_flow) × (delta ≤ most_step) × (length margins.old ≡ margin_cells) }
    ensures { margins.new ≡ margins_put rows.now i x delta margins.old }
{
    let w = rows[4 * i];
    let q = rows[4 * i + 1];
    let low = rows[4 * i + 2];
    let high = rows[4 * i + 3];
    margins[2 * i + 1] = rising(w, q, high, x, delta);
    margins[2 * i] = falling(w, q, low, x, delta);
}

// Stream i is left alone: its arcs are shut.
pub fn shut_margins(margins: &mut [u64; MARGINS], i: usize)
    requires { (i < max_streams) × (length margins.old ≡ margin_cells) }
    ensures { margins.new ≡ set (set margins.old (2 * i + 1) shut) (2 * i) shut }
{
    margins[2 * i + 1] = SHUT;
    margins[2 * i] = SHUT;
}

// The margins of the streams in use.
pub fn margins_of(
    rows: &[u64; ROWS],
    margins: &mut [u64; MARGINS],
    flows: &[u64; MAX_STREAMS],
    count: usize,
    delta: u64,
)
    requires { Marginable count rows.now flows.now delta margins.old }
    ensures { Margined count rows.now flows.now delta 0 margins.new }
{
    for i in 0..count {
        put_margins(rows, margins, i, flows[i], delta);
    }
}
