// Augmenting: what is moved along the streams that a search remembers, with their margins; and from excess to excess.
#![tactic(auto)]

ghost use Rattle.std.specs.Prelude.{◌≡◌, ◌+◌, ◌-◌, ◌*◌, ◌≤◌, ◌<◌, get_or};
ghost use Rattle.num_bytes.specs.Choice.{pick};
ghost use Rattle.plant_def.specs.Limits.{max_streams};
ghost use Rattle.solve_def.specs.Sizes.{most_flow};
ghost use Rattle.solve_def.specs.Model.{shifted_nets};
ghost use Rattle.solve_def.specs.SolverNeeds.{Shiftable};
ghost use Rattle.solve_arcs.specs.Cells.{to_cell};
ghost use Rattle.solve_augment.specs.Augmented.{Augmentable, AugmentCall};

use plant_def::limits::{MAX_STREAMS, PLACES};
use solve_arcs::{ARCS, MARGINS, ROWS, end_at, put_margins};
use solve_def::Route;

// The amount of a stream after delta moves along it, to its end or to its start.
fn moved(x: u64, forwards: bool, delta: u64) -> u64
    requires { (delta ≤ x) × (x + delta ≤ most_flow) }
    ensures { result ≡ pick forwards (x + delta) (x - delta) }
{
    if forwards { x + delta } else { x - delta }
}

// The start of stream i, or its end.
fn place_at(arcs: &[u8; ARCS], start: bool, i: usize) -> usize
    requires { i < max_streams }
    ensures { result ≡ pick start (get_or arcs.now (to_cell + 2 * i) 0) (get_or arcs.now (to_cell + (2 * i + 1)) 0) }
{
    if start {
        end_at(arcs, 2 * i)
    } else {
        end_at(arcs, 2 * i + 1)
    }
}

// Delta is moved along the remembered streams, last to first, from the target back.
pub fn augment(
    arcs: &[u8; ARCS],
    rows: &[u64; ROWS],
    margins: &mut [u64; MARGINS],
    flows: &mut [u64; MAX_STREAMS],
    via: &[u8; PLACES],
    ends: &[u8; PLACES],
    way: Route,
)
    requires { Augmentable arcs.now rows.now margins.old flows.old via.now way }
    ensures { AugmentCall arcs rows margins flows via ends way }
{
    let mut at = way.target;
    for j in (0..way.len).rev() {
        if ends[j] == at {
            let i = via[j] as usize;
            let forwards = end_at(arcs, 2 * i + 1) == at as usize;
            let x = moved(flows[i], forwards, way.delta);
            flows[i] = x;
            put_margins(rows, margins, i, x, way.delta);
            at = place_at(arcs, forwards, i) as u8;
        }
    }
}

// Delta of net moves from place s to place v.
pub fn shift_nets(nets: &mut [u64; PLACES], s: usize, v: usize, delta: u64)
    requires { Shiftable nets.old s v delta }
    ensures { nets.new ≡ shifted_nets nets.old s v delta }
{
    nets[s] -= delta;
    nets[v] += delta;
}
