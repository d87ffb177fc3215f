// The walk from a place: the nearest place is visited, again and again.
ghost use Rattle.std.specs.Prelude.{Bool, true, false, List, ◌≡◌, ℕ, ◌<◌, length};
ghost use Rattle.plant_def.specs.Limits.{places};
ghost use Rattle.solve_def.specs.Sizes.{far};
ghost use Rattle.solve_def.specs.Near.{goal_at};
ghost use Rattle.solve_def.specs.Search.{added_to, root_at};
ghost use Rattle.solve_arcs.specs.ArcNeeds.{Ways, walked_from};
ghost use Rattle.solve_path.specs.Codes.{Coded, NearestFound};
ghost use Rattle.solve_path.specs.Paces.{Pacing, PacedAlong, Tightly};

use crate::relax;
use plant_def::limits::PLACES;
use solve_arcs::{ARCS, MARGINS};
use solve_def::sizes::{FAR, NET_SHIFT, NUMBERING};
use solve_def::{Searched, Spot, Tree, Walked};

// The most places that a walk visits after the first.
const ROUNDS: usize = PLACES - 1;

// The first place of the fringe with the least code; PLACES where there is none. The lowest place is looked at first.
fn nearest(near: &[u64; PLACES], fringe: u64) -> usize
    requires { (length near.now ≡ places) × ((limit : ℕ) × (vs : List Bool) × Coded limit vs near.now fringe) }
    ensures { NearestFound near.now fringe result }
{
    let mut best = FAR;
    let mut at: usize = PLACES;
    let mut left = fringe;
    // Stays a `while`: it clears the lowest bit that is left, and counts nothing.
    while 0 < left {
        let u = left.trailing_zeros() as usize;
        let code = near[u];
        if code < best {
            best = code;
            at = u;
        }
        left &= left - 1;
    }
    at
}

// The tree of place s alone.
fn root(s: usize) -> Tree
    requires { s < places }
    ensures { result ≡ root_at s }
{
    let mut visited = [false; PLACES];
    visited[s] = true;
    Tree {
        visited,
        via: [0u8; PLACES],
        ends: [0u8; PLACES],
        len: 0,
    }
}

// The place visited last joins the tree.
fn add(t: &mut Tree, at: Spot)
    requires { (t.old.len < places) × (at.place < places) }
    ensures { t.new ≡ added_to t.old at.stream at.place }
{
    let len = t.len;
    t.visited[at.place] = true;
    t.via[len] = at.stream;
    t.ends[len] = at.place as u8;
    t.len = len + 1;
}

// Where a walk starts.
fn first(s: usize) -> Spot
    ensures { result ≡ record { place = s; distance = 0; stream = 0; fringe = 0 } }
{
    Spot {
        place: s,
        distance: 0,
        stream: 0,
        fringe: 0,
    }
}

// The arcs of the place visited last are gone along, and the nearest place is taken; PLACES where there is none.
fn step(
    arcs: &[u8; ARCS],
    margins: &[u64; MARGINS],
    potentials: &[u64; PLACES],
    at: Spot,
    near: &mut [u64; PLACES],
) -> Spot
    requires { Pacing arcs.now margins.now potentials.now at near.old }
    ensures { PacedAlong arcs.now margins.now potentials.now at near.old near.new result }
{
    let fringe = relax(arcs, margins, potentials, at, near);
    let e = nearest(near, fringe);
    if e == PLACES {
        return Spot {
            place: PLACES,
            distance: at.distance,
            stream: 0,
            fringe,
        };
    }
    let c = near[e];
    near[e] = 0;
    Spot {
        place: e,
        distance: c / NUMBERING,
        stream: (c % NUMBERING) as u8,
        fringe: fringe ^ (1u64 << e),
    }
}

// From a place until one with a negative net is visited.
pub fn walk(
    arcs: &[u8; ARCS],
    margins: &[u64; MARGINS],
    potentials: &[u64; PLACES],
    nets: &[u64; PLACES],
    s: usize,
) -> Walked
    requires { Ways arcs.now margins.now potentials.now × (s < places) }
    ensures { result ≡ walked_from arcs.now margins.now potentials.now nets.now far s }
{
    let mut at = first(s);
    let mut t = root(s);
    let mut dist = [0u64; PLACES];
    let mut near = [FAR; PLACES];
    near[s] = 0;
    for _left in (0..ROUNDS).rev() {
        at = step(arcs, margins, potentials, at, &mut near);
        if at.place == PLACES {
            return Walked {
                found: false,
                tree: t,
                dist,
                reach: at.distance,
            };
        }
        dist[at.place] = at.distance;
        add(&mut t, at);
        if nets[at.place] < NET_SHIFT {
            return Walked {
                found: true,
                tree: t,
                dist,
                reach: at.distance,
            };
        }
    }
    Walked {
        found: false,
        tree: t,
        dist,
        reach: at.distance,
    }
}

// From place s over arcs of reduced cost 0 until v is visited. (Codes are at first those of the distance 1, so that no other offer is less.)
// Stays a loop beside that of `walk`: one for both would take the first codes and the test as parameters, and keep distances for nothing.
pub fn tight_walk(
    arcs: &[u8; ARCS],
    margins: &[u64; MARGINS],
    potentials: &[u64; PLACES],
    s: usize,
    v: usize,
) -> Searched
    requires { Ways arcs.now margins.now potentials.now × (s < places) × (v < places) }
    ensures { Tightly (walked_from arcs.now margins.now potentials.now (goal_at v) 0 s) result }
{
    let mut at = first(s);
    let mut t = root(s);
    let mut near = [NUMBERING; PLACES];
    near[s] = 0;
    for _left in (0..ROUNDS).rev() {
        at = step(arcs, margins, potentials, at, &mut near);
        if at.place == PLACES {
            return Searched {
                found: false,
                tree: t,
            };
        }
        add(&mut t, at);
        if at.place == v {
            return Searched {
                found: true,
                tree: t,
            };
        }
    }
    Searched {
        found: false,
        tree: t,
    }
}
