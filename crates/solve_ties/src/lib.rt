// Ties over arcs: among equally cheap flows, the first metered stream least, then the second, and so on.
#![tactic(auto)]

ghost use Rattle.std.specs.Prelude.{false, ◌≡◌, ◌+◌, ◌*◌, ◌<◌, length};
ghost use Rattle.plant_def.specs.Limits.{max_streams};
ghost use Rattle.solve_arcs.specs.Cells.{count_of, margin_cells};
ghost use Rattle.solve_arcs.specs.ArcNeeds.{Ways, Margined};
ghost use Rattle.solve_ties.specs.Evens.{Tieable, Tying, can_fall, Spared, TieCall, TiedAll};

use plant_def::limits::{MAX_STREAMS, PLACES};
use solve_arcs::{ARCS, MARGINS, ROWS, count_of, end_at, reduced_cost, shut_margins};
use solve_augment::augment;
use solve_def::Route;
use solve_path::tight_path;

// Whether stream i is metered and its amount can fall at no cost.
fn can_fall(
    arcs: &[u8; ARCS],
    rows: &[u64; ROWS],
    margins: &[u64; MARGINS],
    potentials: &[u64; PLACES],
    i: usize,
) -> bool
    requires { Ways arcs.now margins.now potentials.now × (i < count_of arcs.now) }
    ensures { result ≡ can_fall arcs.now rows.now margins.now potentials.now i }
{
    if 0 < rows[4 * i] {
        let u = end_at(arcs, 2 * i);
        let v = end_at(arcs, 2 * i + 1);
        reduced_cost(margins[2 * i], potentials[v], potentials[u]) == 0
    } else {
        false
    }
}

// Stream i is left alone from now on, if it is metered.
fn spare(rows: &[u64; ROWS], margins: &mut [u64; MARGINS], i: usize)
    requires { (i < max_streams) × (length margins.old ≡ margin_cells) }
    ensures { Spared rows.now i margins.old margins.new }
{
    if 0 < rows[4 * i] {
        shut_margins(margins, i);
    }
}

// Stream i, which can fall at no cost and is left alone, less by one where a way of reduced cost 0 leads round it.
fn tie_at(
    arcs: &[u8; ARCS],
    rows: &[u64; ROWS],
    margins: &mut [u64; MARGINS],
    flows: &mut [u64; MAX_STREAMS],
    potentials: &[u64; PLACES],
    i: usize,
)
    requires { Tying arcs.now rows.now potentials.now i flows.old
        × Margined (count_of arcs.now) rows.now flows.old 1 (i + 1) margins.old }
    ensures { TieCall arcs rows margins flows potentials i }
{
    let u = end_at(arcs, 2 * i);
    let v = end_at(arcs, 2 * i + 1);
    let h = tight_path(arcs, margins, potentials, u, v);
    if !h.found {
        return;
    }
    augment(
        arcs,
        rows,
        margins,
        flows,
        &h.tree.via,
        &h.tree.ends,
        Route {
            len: h.tree.len,
            target: v as u8,
            delta: 1,
        },
    );
    flows[i] -= 1;
}

// The streams one after the other.
pub fn tie_all(
    arcs: &[u8; ARCS],
    rows: &[u64; ROWS],
    margins: &mut [u64; MARGINS],
    flows: &mut [u64; MAX_STREAMS],
    potentials: &[u64; PLACES],
)
    requires { Tieable arcs.now rows.now potentials.now 0 flows.old × Margined (count_of arcs.now) rows.now flows.old 1 0 margins.old }
    ensures { TiedAll arcs.now rows.now potentials.now flows.old flows.new }
{
    let n = count_of(arcs);
    for i in 0..n {
        let falls = can_fall(arcs, rows, margins, potentials, i);
        spare(rows, margins, i);
        if falls {
            tie_at(arcs, rows, margins, flows, potentials, i);
        }
    }
}
