// Phases: improvements from the places one after the other, at smaller and smaller steps.
#![tactic(auto)]

ghost use Rattle.std.specs.Prelude.{◌≡◌, ◌<◌, length};
ghost use Rattle.plant_def.specs.Limits.{places};
ghost use Rattle.solve_arcs.specs.Cells.{margin_cells};
ghost use Rattle.solve_improve.specs.Improves.{Phasable, Improvable};
ghost use Rattle.solve_phases.specs.Phases.{TryCall, PhaseCall};

use plant_def::limits::PLACES;
use solve_arcs::{ARCS, MARGINS, ROWS, count_of, margins_of};
use solve_def::sizes::NET_SHIFT;
use solve_def::{Halt, Quest, State, Tried};
use solve_improve::improve_from;
use solve_infeasible::tested;

pub mod finishing;
pub mod marks;

// As many improvements at step delta from a place as its excess has steps, counted. Where none can be made, the visited places are
// tested at once, and the place is left as it is.
fn from_place(
    arcs: &[u8; ARCS],
    rows: &[u64; ROWS],
    margins: &mut [u64; MARGINS],
    state: &mut State,
    q: Quest,
) -> Tried
    requires { Improvable arcs.now rows.now margins.old q.delta state.old × (q.start < places) }
    ensures { TryCall arcs rows margins state q result }
{
    let mut over = state.nets[q.start].saturating_sub(NET_SHIFT);
    let mut made: u64 = 0;
    // Stays a `while`: it takes the step off what is over, and needs no quotient.
    while q.delta <= over {
        let h = improve_from(arcs, rows, margins, state, q);
        if !h.found {
            let Halt { full, marked } = tested(arcs, rows, h.tree.visited);
            return Tried { full, marked, made };
        }
        made += 1;
        over -= q.delta;
    }
    Tried {
        full: false,
        marked: [false; PLACES],
        made,
    }
}

// A phase at step delta: from the places one after the other. The margins become those of the amounts, and the improvements are
// counted.
pub fn phase(
    arcs: &[u8; ARCS],
    rows: &[u64; ROWS],
    margins: &mut [u64; MARGINS],
    state: &mut State,
    delta: u64,
) -> Tried
    requires { Phasable arcs.now rows.now delta state.old × (length margins.old ≡ margin_cells) }
    ensures { PhaseCall arcs rows margins state delta result }
{
    let count = count_of(arcs);
    margins_of(rows, margins, &state.flows, count, delta);
    let mut made: u64 = 0;
    for s in 0..PLACES {
        let h = from_place(arcs, rows, margins, state, Quest { start: s, delta });
        made += h.made;
        if h.full {
            return Tried { made, ..h };
        }
    }
    Tried {
        full: false,
        marked: [false; PLACES],
        made,
    }
}
