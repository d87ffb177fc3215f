// Shortest paths: the search over visited places, along the arcs of each by their reduced costs.
#![tactic(auto)]

use plant_def::limits::PLACES;
use solve_arcs::{ARCS, MARGINS, NONE, end_at, first_at, next_at, reduced_cost};
use solve_def::sizes::NUMBERING;
use solve_def::{Searched, Spot};
use walking::{tight_walk, walk};

pub mod walking;

ghost use Rattle.std.specs.Prelude.{◌≡◌, ◌+◌, ◌*◌, ◌<◌, ℕ, ◌-◌, length};
ghost use Rattle.plant_def.specs.Limits.{places, max_streams};
ghost use Rattle.solve_def.specs.Sizes.{farthest, far};
ghost use Rattle.num_bytes.specs.Choice.{pick};
ghost use Rattle.solve_def.specs.Near.{code_of, lessened, fallen_by};
ghost use Rattle.solve_def.specs.Fringe.{fringe_bit};
ghost use Rattle.solve_arcs.specs.ArcNeeds.{Searching};
ghost use Rattle.solve_path.specs.Codes.{Standing, LookedAlong};
ghost use Rattle.solve_path.specs.Paces.{Sought, SoughtTightly};

// Place v is offered distance d over stream i; its bit, where that is nearer. (Which it is cannot be foreseen: so the code is stored in
// any case.)
fn offer(near: &mut [u64; PLACES], v: usize, d: u64, i: usize) -> u64
    requires { (d < 2 * farthest) × (v < places) × (i < max_streams) × (length near.old ≡ places) }
    ensures { (near.new ≡ lessened near.old v (code_of d i)) × (result ≡ fringe_bit far near.old v d i) }
{
    let code = d * NUMBERING + i as u64;
    let old = near[v];
    near[v] = old.min(code);
    u64::from(code < old) << v
}

// The arcs of the place visited last are gone along, and each place that they lead to is offered its distance; the fringe after that.
pub fn relax(
    arcs: &[u8; ARCS],
    margins: &[u64; MARGINS],
    potentials: &[u64; PLACES],
    at: Spot,
    near: &mut [u64; PLACES],
) -> u64
    requires { Standing arcs.now margins.now potentials.now at near.old }
    ensures { LookedAlong arcs.now margins.now potentials.now at near.old near.new result }
{
    let e = at.place;
    let p = potentials[e];
    let mut fringe = at.fringe;
    let mut arc = first_at(arcs, e);
    // Stays a `while`: the next arc is known only from this one.
    while arc < NONE {
        let v = end_at(arcs, arc);
        let g = reduced_cost(margins[arc], p, potentials[v]);
        let bit = offer(near, v, at.distance + g, arc / 2);
        fringe |= bit;
        arc = next_at(arcs, arc);
    }
    fringe
}

// The potential of a visited place falls by what the search's distance exceeds its own; another's stays.
fn fall(visited: bool, reach: u64, dist: u64) -> u64
    ensures { result ≡ pick visited (reach - dist) 0 }
{
    if visited {
        reach.saturating_sub(dist)
    } else {
        0
    }
}

// The potentials of all places. (A place's is written whether it falls or not: which places are visited cannot be foreseen.)
fn lower(potentials: &mut [u64; PLACES], visited: &[bool; PLACES], dist: &[u64; PLACES], reach: u64)
    requires { length potentials.old ≡ places }
    ensures { potentials.new ≡ fallen_by visited.now dist.now reach potentials.old }
{
    for (u, p) in potentials.iter_mut().enumerate() {
        *p = p.saturating_sub(fall(visited[u], reach, dist[u]));
    }
}

// Places are visited, each over the stream of least reduced cost and with the potentials lowered by it, until one with a negative net is; where
// none can be reached, the potentials stay. (The walk goes along arcs by distances, and the potentials fall once, at its end.)
pub fn search(
    arcs: &[u8; ARCS],
    margins: &[u64; MARGINS],
    potentials: &mut [u64; PLACES],
    nets: &[u64; PLACES],
    s: usize,
    delta: u64,
) -> Searched
    requires { Searching arcs.now margins.now potentials.old delta 0 × (s < places) × (length potentials.old ≡ places) }
    ensures { Sought arcs.now margins.now potentials.old nets.now delta s result potentials.new }
{
    let w = walk(arcs, margins, potentials, nets, s);
    if w.found {
        lower(potentials, &w.tree.visited, &w.dist, w.reach);
    }
    Searched {
        found: w.found,
        tree: w.tree,
    }
}

// Places are visited over arcs of reduced cost 0 until v is, metered streams before number skip left alone: their arcs are shut.
pub fn tight_path(
    arcs: &[u8; ARCS],
    margins: &[u64; MARGINS],
    potentials: &[u64; PLACES],
    s: usize,
    v: usize,
) -> Searched
    requires { ((skip : ℕ) × Searching arcs.now margins.now potentials.now 1 skip) × (s < places) × (v < places) }
    ensures { SoughtTightly arcs.now margins.now potentials.now s v result }
{
    tight_walk(arcs, margins, potentials, s, v)
}
