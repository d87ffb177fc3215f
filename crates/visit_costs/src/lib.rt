// The least cost of a plant without the meter of one stream, for each A stream.
#![tactic(auto)]

ghost use Rattle.plant_def.specs.Within.{Accepted};
ghost use Rattle.plant_def.specs.Says.{plant_of};
ghost use Rattle.visit_def.specs.Visits.{LeastCost, Feasible, without, is_adjusted};
ghost use Rattle.std.specs.Prelude.{◌≡◌, true, false, ℕ, ◌<◌, get_or, replicate};
ghost use Rattle.plant_def.specs.Limits.{max_streams};
ghost use Rattle.flow_def.specs.declared.Class.TheVariants.{Adjusted};
ghost use Rattle.num_bytes.specs.Written.{Written};

use flow_components::group;
use flow_def::{Class, Which};
use plant_def::Plant;
use plant_def::limits::{MAX_STREAMS, PLACES};
use plant_def::streams::unmetered_stream;
use sheet_cost::cost_held;
use solve_arcs::{ARCS, MARGINS, NONE, ROWS};
use solve_arcs_fill::lay;
use solve_def::State;
use solve_def::sizes::{FLOW_SHIFT, NET_SHIFT, POTENTIAL_SHIFT};
use solve_phases::finishing::finish;
use solve_start::start;

// The least cost, as it is written on a sheet. (No set of places is overfull.)
pub fn least_cost(p: Plant) -> u64
    requires { Accepted p × Feasible (plant_of p) }
    ensures { LeastCost (plant_of p) result }
{
    let streams = p.streams;
    let count = p.count as usize;
    let mut arcs = [NONE as u8; ARCS];
    let mut rows = [0u64; ROWS];
    let mut margins = [0u64; MARGINS];
    lay(streams, count, &mut arcs, &mut rows);
    let labels = group(&arcs, &rows, Which::Unmetered);
    let mut state = State {
        flows: [FLOW_SHIFT; MAX_STREAMS],
        potentials: [POTENTIAL_SHIFT; PLACES],
        nets: [NET_SHIFT; PLACES],
    };
    start(p.units, labels, &arcs, &rows, &mut state);
    let e = finish(&arcs, &rows, &mut margins, &mut state);
    if e.full {
        return 0;
    }
    cost_held(&arcs, &rows, &state.flows)
}

// The plant with stream k unmetered, and its range gone.
fn unmeter_one(p: Plant, k: usize) -> Plant
    requires { Accepted p × (k < p.count) }
    ensures { Accepted result × (plant_of result ≡ without (plant_of p) k) }
{
    let s = p.streams[k];
    let mut streams = p.streams;
    let bare = unmetered_stream(s.from, s.to);
    streams[k] = bare;
    Plant { streams, ..p }
}

// Whether a class is that of A streams.
fn is_adjusted(class: Class) -> bool
    ensures { result ≡ is_adjusted class }
{
    matches!(class, Class::Adjusted)
}

// Whether each stream is an A stream.
pub fn adjusted_of(classes: [Class; MAX_STREAMS]) -> [bool; MAX_STREAMS]
    ensures { Written false max_streams (λ k x. is_adjusted (get_or classes k Adjusted)) (replicate max_streams false) result max_streams }
{
    let mut r = [false; MAX_STREAMS];
    for (k, c) in classes.iter().enumerate() {
        r[k] = is_adjusted(*c);
    }
    r
}

// For each stream that is listed, the least cost without its meter.
pub fn costs_without(p: Plant, listed: [bool; MAX_STREAMS]) -> [u64; MAX_STREAMS]
    requires { Accepted p × Feasible (plant_of p) }
    ensures { (k : ℕ) → k < p.count → get_or listed k false ≡ true → LeastCost (without (plant_of p) k) (get_or result k 0) }
{
    let n = p.count as usize;
    let mut costs = [0u64; MAX_STREAMS];
    for k in 0..n {
        if listed[k] {
            costs[k] = least_cost(unmeter_one(p, k));
        }
    }
    costs
}
