// The metered streams between groups as real numbers, and the equations of one step towards the real-number optimum.
#![tactic(auto)]

use plant_def::limits::{MAX_STREAMS, PLACES};
use readings::{conductance_of, high_of, low_of, reading_of};
use solve_arcs::{ARCS, ROWS, count_of, wide};

mod elimination;
pub mod equations;
pub mod readings;

ghost use Rattle.std.specs.Prelude.{◌≡◌, ℕ, suc, IfSome, ◌+◌, ◌*◌, ◌<◌, ◌≤◌, length, get_or, set};
ghost use Rattle.plant_def.specs.Limits.{max_streams, places};
ghost use Rattle.solve_arcs.specs.Cells.{to_cell, count_of};
ghost use Rattle.newton_laplacian.specs.Readings.{Read};
ghost use Rattle.newton_laplacian.specs.Ends.{Placed, Placing, StillEnds, meter_cells, Long};
ghost use Rattle.newton_laplacian.specs.Amounts.{conductance, amount_by, brought_in};

pub const ENDS: usize = 2 * MAX_STREAMS;

pub const METERS: usize = 4 * MAX_STREAMS;

// The group of the start of stream k, and of its end.
pub fn start_at(ends: &[u8; ENDS], k: usize) -> usize
    requires { k < max_streams }
    ensures { result ≡ get_or ends.now (2 * k) 0 }
{
    wide(ends[2 * k])
}

pub fn end_at(ends: &[u8; ENDS], k: usize) -> usize
    requires { k < max_streams }
    ensures { result ≡ get_or ends.now (2 * k + 1) 0 }
{
    wide(ends[2 * k + 1])
}

// Its conductance.
pub fn conductance_at(meters: &[f64; METERS], k: usize) -> f64
    requires { (length meters.now ≡ meter_cells) × (k < max_streams) }
    ensures { result ≡ conductance meters.now k }
{
    meters[4 * k + 1]
}

// Its amount between potentials that differ by climb.
pub fn amount_at(meters: &[f64; METERS], k: usize, climb: f64) -> f64
    requires { (length meters.now ≡ meter_cells) × (k < max_streams) }
    ensures { result ≡ amount_by meters.now k climb }
{
    meters[4 * k] + climb * conductance_at(meters, k)
}

// An amount brought into its range.
pub fn in_range(meters: &[f64; METERS], k: usize, x: f64) -> f64
    requires { (length meters.now ≡ meter_cells) × (k < max_streams) }
    ensures { result ≡ brought_in meters.now k x }
{
    let meter = 4 * k;
    let low = meters[meter + 2];
    if x < low {
        return low;
    }
    let high = meters[meter + 3];
    if high < x {
        return high;
    }
    x
}

// Stream i, which leads from group g to group h, becomes stream k.
fn put(
    ends: &mut [u8; ENDS],
    meters: &mut [f64; METERS],
    k: usize,
    rows: &[u64; ROWS],
    i: usize,
    g: u8,
    h: u8,
)
    requires { Long ends.old meters.old × (k < max_streams) × Read rows.now i }
    ensures { (ends.new ≡ set (set ends.old (2 * k) g) (2 * k + 1) h) × (length meters.new ≡ meter_cells) }
{
    let c = conductance_of(rows, i);
    let reading = reading_of(rows, i, c);
    let low = low_of(rows, i);
    let high = high_of(rows, i);
    let end = 2 * k;
    ends[end] = g;
    ends[end + 1] = h;
    let meter = 4 * k;
    meters[meter] = reading;
    meters[meter + 1] = c;
    meters[meter + 2] = low;
    meters[meter + 3] = high;
}

// The label of the place that an arc leads to.
fn group_at(labels: &[u8; PLACES], arcs: &[u8; ARCS], arc: usize) -> u8
    requires { (arc < 2 * max_streams) × (get_or arcs.now (to_cell + arc) 0 < places) }
    ensures { result ≡ get_or labels.now (get_or arcs.now (to_cell + arc) 0) 0 }
{
    labels[solve_arcs::end_at(arcs, arc)]
}

// The groups that stream i leads from and to, if it is metered and they are two.
fn groups_of(
    labels: &[u8; PLACES],
    arcs: &[u8; ARCS],
    rows: &[u64; ROWS],
    i: usize,
) -> Option<(u8, u8)>
    requires { Placing labels.now arcs.now rows.now × (i < count_of arcs.now) }
    ensures { (n : ℕ) → Placed n labels.now arcs.now rows.now → IfSome result (λ e. (e.0 < n) × (e.1 < n)) }
{
    let g = group_at(labels, arcs, 2 * i);
    let h = group_at(labels, arcs, 2 * i + 1);
    if g == h || rows[4 * i] == 0 {
        return None;
    }
    Some((g, h))
}

// A stream, if it is metered and leads from one group to another. How many streams there are now.
fn take_in(
    ends: &mut [u8; ENDS],
    meters: &mut [f64; METERS],
    k: usize,
    labels: &[u8; PLACES],
    arcs: &[u8; ARCS],
    rows: &[u64; ROWS],
    i: usize,
) -> usize
    requires { Long ends.old meters.old × (k < max_streams) × Placing labels.now arcs.now rows.now × (i < count_of arcs.now) }
    ensures long { Long ends.new meters.new × (result ≤ suc k) }
    ensures still_ends { StillEnds labels.now arcs.now rows.now ends.old ends.new }
{
    let Some((g, h)) = groups_of(labels, arcs, rows, i) else {
        return k;
    };
    put(ends, meters, k, rows, i, g, h);
    k + 1
}

// All such streams of a plant.
pub fn gather(
    labels: &[u8; PLACES],
    arcs: &[u8; ARCS],
    rows: &[u64; ROWS],
    ends: &mut [u8; ENDS],
    meters: &mut [f64; METERS],
) -> usize
    requires { Placing labels.now arcs.now rows.now × Long ends.old meters.old }
    ensures meters_len { (length meters.new ≡ meter_cells) × (result ≤ max_streams) }
    ensures still_ends { StillEnds labels.now arcs.now rows.now ends.old ends.new }
{
    let n = count_of(arcs);
    let mut k: usize = 0;
    for i in 0..n {
        k = take_in(ends, meters, k, labels, arcs, rows, i);
    }
    k
}
