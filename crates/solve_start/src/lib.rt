// The start by factorisation: metered amounts settled at potentials at which the real-number optimum balances, unmetered ones routed
// along a spanning forest.
#![tactic(auto)]

ghost use Rattle.std.specs.Prelude.{◌≡◌, replicate};
ghost use Rattle.plant_def.specs.Limits.{max_streams};
ghost use Rattle.plant_def.specs.declared.Plant.{Plant};
ghost use Rattle.plant_def.specs.Says.{plant_of};
ghost use Rattle.flow_def.specs.Calls.{Grouped};
ghost use Rattle.solve_def.specs.Sizes.{flow_shift};
ghost use Rattle.solve_def.specs.SolverNeeds.{AtHint};
ghost use Rattle.solve_arcs_fill.specs.Plants.{LaidOf};

use newton_descend::potentials_of;
use plant_def::limits::PLACES;
use solve_arcs::{ARCS, ROWS};
use solve_def::State;
use solve_def::sizes::{POTENTIAL_SHIFT, POTENTIAL_SPREAD};
use solve_forest::{route, span};
use solve_settle::{nets_of, settle_flows};

// Potentials from the labels by the unmetered streams, and amounts at these, in a lent state; the amounts are 0 at first. Routing leaves
// metered amounts as they are. If a set of places looks overfull, that set as bits; else 0.
pub fn start(
    units: u8,
    labels: [u8; PLACES],
    arcs: &[u8; ARCS],
    rows: &[u64; ROWS],
    state: &mut State,
) -> u64
    requires { ((p : Plant) × LaidOf p arcs.now rows.now × (p.units ≡ units) × Grouped p labels)
        × (state.old.flows ≡ replicate max_streams flow_shift) }
    ensures { (p : Plant) → LaidOf p arcs.now rows.now → Grouped p labels → AtHint (plant_of p).streams state.new }
{
    let mut guess: u64 = 0;
    state.potentials = potentials_of(
        units,
        labels,
        arcs,
        rows,
        POTENTIAL_SHIFT,
        POTENTIAL_SPREAD,
        &mut guess,
    );
    settle_flows(arcs, rows, &state.potentials, &mut state.flows);
    state.nets = nets_of(arcs, &state.flows);
    route(
        arcs,
        span(arcs, rows, labels),
        &mut state.nets,
        &mut state.flows,
    );
    state.nets = nets_of(arcs, &state.flows);
    guess
}
