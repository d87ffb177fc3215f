// Improvements over arcs: net is moved from a place that has too much to one that has too little, at the least cost.
#![tactic(auto)]

ghost use Rattle.solve_improve.specs.Improves.{Improves, ImproveCall};

use solve_arcs::{ARCS, MARGINS, ROWS};
use solve_augment::{augment, shift_nets};
use solve_compress::refloor;
use solve_def::{Quest, Route, Searched, State};
use solve_path::search;

// One improvement at step delta from place s: a search to a place with a negative net, and delta augmented along the way to it. Where no
// such place can be reached, nothing changes. The margins stay those of the amounts.
pub fn improve_from(
    arcs: &[u8; ARCS],
    rows: &[u64; ROWS],
    margins: &mut [u64; MARGINS],
    state: &mut State,
    q: Quest,
) -> Searched
    requires { Improves arcs.now rows.now margins.old q state.old }
    ensures { ImproveCall arcs rows margins state q result }
{
    let h = search(
        arcs,
        margins,
        &mut state.potentials,
        &state.nets,
        q.start,
        q.delta,
    );
    if !h.found {
        return h;
    }
    let target = h.tree.ends[h.tree.len - 1];
    augment(
        arcs,
        rows,
        margins,
        &mut state.flows,
        &h.tree.via,
        &h.tree.ends,
        Route {
            len: h.tree.len,
            target,
            delta: q.delta,
        },
    );
    shift_nets(&mut state.nets, q.start, target as usize, q.delta);
    refloor(&mut state.potentials);
    h
}
