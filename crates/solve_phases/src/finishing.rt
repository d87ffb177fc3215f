// From amounts settled at a hint to a balanced flow that meets the step condition at 1, or to a set that is overfull.
ghost use Rattle.std.specs.Prelude.{◌≡◌, length};
ghost use Rattle.solve_arcs.specs.Cells.{margin_cells};
ghost use Rattle.solve_arcs.specs.ArcNeeds.{Laying};
ghost use Rattle.solve_phases.specs.Finishes.{Finishable};
ghost use Rattle.solve_phases.specs.Phases.{PhasesCall, FinishCall};

use crate::phase;
use solve_arcs::{ARCS, MARGINS, ROWS};
use solve_def::sizes::{MOST_STEP, MOST_TRIED};
use solve_def::{State, Tried};
use solve_settle::{excess_sum, forget, resettle};

// From no hint: at each step from MOST_STEP down to 1 amounts are settled anew, and a phase is gone through.
fn phases(
    arcs: &[u8; ARCS],
    rows: &[u64; ROWS],
    margins: &mut [u64; MARGINS],
    state: &mut State,
) -> Tried
    requires { Laying arcs.now rows.now × (length margins.old ≡ margin_cells) }
    ensures { PhasesCall arcs rows margins state result }
{
    forget(state);
    let mut made: u64 = 0;
    let mut step = MOST_STEP;
    // Stays a `while`: it halves the step.
    while 1 < step {
        resettle(arcs, rows, state);
        let e = phase(arcs, rows, margins, state, step);
        made += e.made;
        if e.full {
            return Tried { made, ..e };
        }
        step /= 2;
    }
    resettle(arcs, rows, state);
    let e = phase(arcs, rows, margins, state, 1);
    made += e.made;
    Tried { made, ..e }
}

// One phase at step 1; where too much is over, all phases from no hint. Where no set is full, the margins are those of the amounts.
pub fn finish(
    arcs: &[u8; ARCS],
    rows: &[u64; ROWS],
    margins: &mut [u64; MARGINS],
    state: &mut State,
) -> Tried
    requires { Finishable arcs.now rows.now state.old × (length margins.old ≡ margin_cells) }
    ensures { FinishCall arcs rows margins state result }
{
    if excess_sum(&state.nets) <= MOST_TRIED {
        return phase(arcs, rows, margins, state, 1);
    }
    phases(arcs, rows, margins, state)
}
