// What a flow costs, as it is written: stream by stream, and summed up.
#![tactic(auto)]

ghost use Rattle.std.specs.Prelude.{◌≡◌, ℕ, ◌+◌, ◌*◌, ◌≤◌, ◌<◌, length, take};
ghost use Rattle.plant_def.specs.declared.Plant.{Plant};
ghost use Rattle.plant_def.specs.Limits.{max_units, max_streams, max_weight};
ghost use Rattle.plant_def.specs.Within.{WithinStream, Accepted};
ghost use Rattle.plant_def.specs.Says.{plant_of};
ghost use Rattle.flow_def.specs.Flows.{cost};
ghost use Rattle.solve_def.specs.Sizes.{most_flow};
ghost use Rattle.solve_def.specs.Held.{opened};
ghost use Rattle.solve_def.specs.SolverNeeds.{Amounts};
ghost use Rattle.solve_arcs_fill.specs.Plants.{LaidOf};
ghost use Rattle.sheet_def.specs.Totals.{capped};
ghost use Rattle.sheet_def.specs.Calls.{Small, AllSmall, stream_cost};
ghost use Rattle.sheet_cost.specs.Rows.{distance_squared, safe_root};

use plant_def::limits::MAX_STREAMS;
use plant_def::{Plant, Stream};
use sheet_def::kinds::{TOP_COST, TOP_ROOT};
use solve_arcs::{ARCS, ROWS, count_of};

// A number whose square, times any weight, is within a word.
const SAFE_ROOT: u64 = 134_217_728;

// Weight times a square, as it is written. (Most roots are safe, and ask for no quotient.)
fn weighed_square(weight: u64, d: u64) -> u64
    requires { (weight ≤ max_weight) × (safe_root < d → 1 ≤ weight) }
    ensures { result ≡ capped (weight * (d * d)) }
{
    if d <= SAFE_ROOT {
        return weight * (d * d);
    }
    if TOP_ROOT < d {
        return TOP_COST;
    }
    let square = d * d;
    if TOP_COST / weight < square {
        return TOP_COST;
    }
    weight * square
}

// A sum, as it is written: no more is added than there is room for.
fn capped_sum(a: u64, b: u64) -> u64
    ensures { result ≡ capped (a + b) }
{
    a.saturating_add(b)
}

// What a stream costs, as it is written: weight times correction squared where it is metered.
fn stream_cost(s: Stream, flow: i64) -> u64
    requires { WithinStream max_units s × Small flow }
    ensures { result ≡ capped (stream_cost s flow) }
{
    if !s.metered {
        return 0;
    }
    let d = (flow - s.reading as i64).unsigned_abs();
    weighed_square(s.weight as u64, d)
}

// The cost of a flow, as it is written: the sum over the streams.
pub fn cost_of(p: Plant, flows: [i64; MAX_STREAMS]) -> u64
    requires { Accepted p × AllSmall flows }
    ensures { result ≡ capped (cost (plant_of p).streams (take p.count flows)) }
{
    let mut sum: u64 = 0;
    for i in 0..p.count as usize {
        sum = capped_sum(sum, stream_cost(p.streams[i], flows[i]));
    }
    sum
}

// What a stream costs at the held amount x, as it is written: by its weight, and twice the weight times its reading.
fn row_cost(w: u64, pull: u64, x: u64) -> u64
    requires { (w ≤ max_weight) × (x ≤ most_flow) × ((R : ℕ) × (pull ≡ 2 * (w * R))) }
    ensures { (R : ℕ) → pull ≡ 2 * (w * R) → result ≡ capped (w * distance_squared x R) }
{
    let d = (2 * (w * x)).abs_diff(pull) / (2 * w).max(1);
    weighed_square(w, d)
}

// The cost of amounts that the solver holds, as it is written.
pub fn cost_held(arcs: &[u8; ARCS], rows: &[u64; ROWS], flows: &[u64; MAX_STREAMS]) -> u64
    requires { ((p : Plant) × LaidOf p arcs.now rows.now) × Amounts flows.now × (length flows.now ≡ max_streams) }
    ensures { (p : Plant) → LaidOf p arcs.now rows.now
        → result ≡ capped (cost (plant_of p).streams (opened p.count flows.now)) }
{
    let n = count_of(arcs);
    let mut sum: u64 = 0;
    for i in 0..n {
        let cost = row_cost(rows[4 * i], rows[4 * i + 1], flows[i]);
        sum = capped_sum(sum, cost);
    }
    sum
}
