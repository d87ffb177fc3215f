// The cheapest balanced flow of a plant, with potentials that certify it; or a set of places that must take in more than it can let
// out.
#![tactic(auto)]

ghost use Rattle.std.specs.Prelude.{◌≡◌, true, false, ◌≤◌};
ghost use Rattle.plant_def.specs.declared.Plant.{Plant};
ghost use Rattle.plant_def.specs.Within.{Accepted};
ghost use Rattle.plant_def.specs.Says.{plant_of};
ghost use Rattle.solve_def.specs.SolverNeeds.{AtHint, Hinted};
ghost use Rattle.solve_def.specs.Promise.{Right};
ghost use Rattle.solve_def.specs.Few.{most_made};
ghost use Rattle.solve_def.specs.Model.{masked};
ghost use Rattle.solve_def.specs.Full.{overfull};
ghost use Rattle.newton_descend.specs.Guesses.{marks_of};
ghost use Rattle.solve_call.specs.Answers.{Answers};
ghost use Rattle.solve_arcs.specs.ArcNeeds.{Laying, OfStreams};
ghost use Rattle.solve_arcs_fill.specs.Plants.{LaidOf};
ghost use Rattle.flow_def.specs.Calls.{Grouped};

use newton_descend::guesses::marks_of;
use plant_def::Plant;
use plant_def::limits::{MAX_STREAMS, PLACES};
use solve_arcs::{ARCS, MARGINS, NONE, ROWS};
use solve_arcs_fill::lay;
use solve_def::sizes::{FLOW_SHIFT, NET_SHIFT, POTENTIAL_SHIFT};
use solve_def::{Hint, Solved, State};
use solve_infeasible::overfull;
use solve_phases::finishing::finish;
use solve_phases::marks::masked;
use solve_settle::settle;
use solve_start::start;
use solve_ties::tie_all;

// The cheapest balanced flow of a plant, from amounts settled at a hint, in a lent state; or a set of places that must take in more than it
// can let out. The improvements are counted.
pub fn solve_at(units: u8, arcs: &[u8; ARCS], rows: &[u64; ROWS], state: &mut State) -> Solved
    requires { (p : Plant) × LaidOf p arcs.now rows.now × (p.units ≡ units) × AtHint (plant_of p).streams state.old }
    ensures { Answers arcs.now rows.now units state.old result }
{
    let mut margins = [0u64; MARGINS];
    let e = finish(arcs, rows, &mut margins, state);
    let marked = masked(e.marked, units);
    if e.full {
        return Solved {
            found: false,
            flows: state.flows,
            potentials: state.potentials,
            marked,
            made: e.made,
        };
    }
    tie_all(
        arcs,
        rows,
        &mut margins,
        &mut state.flows,
        &state.potentials,
    );
    Solved {
        found: true,
        flows: state.flows,
        potentials: state.potentials,
        marked,
        made: e.made,
    }
}

// From any hint. Few improvements are made.
pub fn solve_from(p: Plant, h: Hint) -> Solved
    requires { Accepted p × Hinted (plant_of p).streams h }
    ensures { Right p result × (result.made ≤ most_made) }
{
    let mut arcs = [NONE as u8; ARCS];
    let mut rows = [0u64; ROWS];
    lay(p.streams, p.count as usize, &mut arcs, &mut rows);
    let mut state = settle(&arcs, &rows, h);
    solve_at(p.units, &arcs, &rows, &mut state)
}

// Whether a guess is a set of places, as bits, that is overfull.
fn is_overfull(units: u8, arcs: &[u8; ARCS], rows: &[u64; ROWS], guess: u64) -> bool
    requires { Laying arcs.now rows.now }
    ensures { OfStreams arcs.now rows.now (λ ss n. result ≡ true → overfull ss (masked units (marks_of guess)) ≡ true) }
{
    guess != 0 && overfull(arcs, rows, &marks_of(guess, units))
}

// What is handed over if a set of places is found at the start: no improvement is made.
fn refused(state: &State, marked: [bool; PLACES]) -> Solved
    ensures { (result.found ≡ false) × (result.marked ≡ marked) × (result.made ≡ 0) }
{
    Solved {
        found: false,
        flows: state.flows,
        potentials: state.potentials,
        marked,
        made: 0,
    }
}

// The same of a plant whose arcs and rows are laid, and whose labels by the unmetered streams are handed in. If the start guesses a set of
// places, and the set is overfull, that is the answer.
pub fn solve(units: u8, labels: [u8; PLACES], arcs: &[u8; ARCS], rows: &[u64; ROWS]) -> Solved
    requires { (p : Plant) × LaidOf p arcs.now rows.now × (p.units ≡ units) × Grouped p labels }
    ensures { ((p : Plant) → LaidOf p arcs.now rows.now → p.units ≡ units → Grouped p labels → Right p result)
        × (result.made ≤ most_made) }
{
    let mut state = State {
        flows: [FLOW_SHIFT; MAX_STREAMS],
        potentials: [POTENTIAL_SHIFT; PLACES],
        nets: [NET_SHIFT; PLACES],
    };
    let guess = start(units, labels, arcs, rows, &mut state);
    if is_overfull(units, arcs, rows, guess) {
        return refused(&state, marks_of(guess, units));
    }
    solve_at(units, arcs, rows, &mut state)
}
