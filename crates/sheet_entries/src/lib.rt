// Class and flow of each stream, and the balance by a given solution; it stands below the solver.
#![tactic(auto)]

ghost use Rattle.std.specs.Prelude.{◌≡◌, ◌≤◌, length};
ghost use Rattle.plant_def.specs.declared.Plant.{Plant};
ghost use Rattle.plant_def.specs.Limits.{max_streams};
ghost use Rattle.plant_def.specs.Within.{Accepted};
ghost use Rattle.plant_def.specs.Says.{plant_of};
ghost use Rattle.flow_def.specs.Calls.{Bridging, classes_of};
ghost use Rattle.solve_def.specs.Sizes.{most_flow};
ghost use Rattle.solve_def.specs.Held.{unshifted};
ghost use Rattle.solve_def.specs.SolverNeeds.{Amounts};
ghost use Rattle.solve_def.specs.Promise.{Solution};
ghost use Rattle.solve_arcs_fill.specs.Plants.{LaidOf};
ghost use Rattle.sheet_def.specs.Totals.{top_cost};
ghost use Rattle.sheet_def.specs.Balances.{entry_of, BalanceSays};
ghost use Rattle.sheet_entries.specs.Entries.{EntersAs};

use flow_classes::{class_of, degrees_of};
use flow_def::{Bridges, Class};
use flow_test::{adjusted_weight, verdict};
use plant_def::Plant;
use plant_def::limits::MAX_STREAMS;
use sheet_cost::cost_held;
use sheet_def::blanks::blank_entry;
use sheet_def::{Balance, Entry};
use solve_arcs::{ARCS, ROWS, count_of, end_at};
use solve_def::Solved;
use solve_def::sizes::FLOW_SHIFT;

// The flow that the solver holds as x.
fn opened_flow(x: u64) -> i64
    requires { x ≤ most_flow }
    ensures { result ≡ unshifted x }
{
    x as i64 - FLOW_SHIFT as i64
}

// The classes of all streams; past the last one, Withheld.
pub fn classes_of(p: Plant, bridges: Bridges) -> [Class; MAX_STREAMS]
    requires { Accepted p × Bridging p bridges }
    ensures { result ≡ classes_of (plant_of p) }
{
    let mut classes = [Class::Withheld; MAX_STREAMS];
    for i in 0..p.count as usize {
        let s = p.streams[i];
        classes[i] = class_of(
            &bridges.labels,
            s.metered,
            s.from as usize,
            s.to as usize,
            bridges.taken[i],
            bridges.looped,
        );
    }
    classes
}

// A stream's entry: a withheld one has no flow.
fn entry_of(class: Class, flow: i64) -> Entry
    ensures { result ≡ entry_of class flow }
{
    match class {
        Class::Adjusted | Class::AsRead | Class::Given => Entry { class, flow },
        Class::Withheld => blank_entry(),
    }
}

// What one pass over the streams finds: their entries, and the summed weights of the adjusted ones.
#[derive(Clone, Copy)]
pub struct Entered {
    pub streams: [Entry; MAX_STREAMS],
    pub weights: u64,
}

// The entries of all streams with the amounts that the solver holds; past the last one, where the class is Withheld, empty ones.
fn enter(
    arcs: &[u8; ARCS],
    rows: &[u64; ROWS],
    bridges: Bridges,
    held: &[u64; MAX_STREAMS],
) -> Entered
    requires { ((p : Plant) × LaidOf p arcs.now rows.now × Bridging p bridges) × Amounts held.now × (length held.now ≡ max_streams) }
    ensures { ((p : Plant) → LaidOf p arcs.now rows.now → Bridging p bridges
        → EntersAs p held.now result.streams result.weights) × (result.weights ≤ top_cost) }
{
    let n = count_of(arcs);
    let none = blank_entry();
    let mut streams = [none; MAX_STREAMS];
    let mut weights: u64 = 0;
    for i in 0..n {
        let w = rows[4 * i];
        let u = end_at(arcs, 2 * i);
        let v = end_at(arcs, 2 * i + 1);
        let c = class_of(
            &bridges.labels,
            0 < w,
            u,
            v,
            bridges.taken[i],
            bridges.looped,
        );
        weights += adjusted_weight(c, w);
        let x = opened_flow(held[i]);
        streams[i] = entry_of(c, x);
    }
    Entered { streams, weights }
}

// The balance by the cheapest flow. The plant as read stands unchanged beside the corrected flows.
pub fn balance_by(
    units: u8,
    arcs: &[u8; ARCS],
    rows: &[u64; ROWS],
    bridges: Bridges,
    solved: Solved,
) -> Balance
    requires { (p : Plant) × LaidOf p arcs.now rows.now × (p.units ≡ units) × Bridging p bridges × Solution p solved }
    ensures { (p : Plant) → LaidOf p arcs.now rows.now → p.units ≡ units → Bridging p bridges → Solution p solved
        → BalanceSays (plant_of p) result }
{
    let cost = cost_held(arcs, rows, &solved.flows);
    let degrees = degrees_of(arcs, rows, units, bridges.labels);
    let entered = enter(arcs, rows, bridges, &solved.flows);
    let verdict = verdict(degrees, cost, entered.weights);
    let streams = entered.streams;
    Balance {
        streams,
        cost,
        degrees,
        verdict,
    }
}
