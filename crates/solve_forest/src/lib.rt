// A spanning forest of the unmetered streams, and their amounts routed along it.
#![tactic(auto)]

ghost use Rattle.std.specs.Prelude.{◌≡◌, ℕ, ◌<◌, false, not, List, length, slice_index_or};
ghost use Rattle.plant_def.specs.Limits.{places, max_streams};
ghost use Rattle.num_bytes.specs.Sums.{count_to};
ghost use Rattle.solve_arcs.specs.ArcNeeds.{Laying};
ghost use Rattle.solve_forest.specs.Forests.{Spanning, ListedMore, FreeOf, ListedOf, ListedOn, Routable};
ghost use Rattle.solve_def.specs.SearchNeeds.{SizeWithin};
ghost use Rattle.solve_def.specs.Sizes.{hint_room};
ghost use Rattle.solve_forest.specs.Routes.{Routing, Routed};

use plant_def::limits::{MAX_STREAMS, PLACES};
use solve_arcs::{ARCS, ROWS, count_of, end_at};
use solve_def::sizes::{FLOW_SHIFT, HINT_ROOM, NET_SHIFT};

// A spanning forest of unmetered streams: in the order in which places were reached, the stream that leads to each, and whether
// it leads into it.
#[derive(Clone, Copy)]
pub struct Forest {
    pub via: [u8; PLACES],
    pub into: [bool; PLACES],
    pub len: usize,
}

// The places that are labels.
fn roots(labels: [u8; PLACES]) -> [bool; PLACES]
    ensures { length result ≡ places }
{
    let mut reached = [false; PLACES];
    for (u, label) in labels.iter().enumerate() {
        reached[u] = *label as usize == u;
    }
    reached
}

// Place e over stream i, if it is not reached yet.
fn reach(reached: &mut [bool; PLACES], forest: &mut Forest, i: u8, e: usize, inwards: bool)
    requires { Spanning reached.old forest.old.via forest.old.into forest.old.len × (e < places) }
    ensures { Spanning reached.new forest.new.via forest.new.into forest.new.len
        × ListedMore i forest.old.via forest.old.len forest.new.via forest.new.len }
{
    if reached[e] {
        return;
    }
    reached[e] = true;
    forest.via[forest.len] = i;
    forest.into[forest.len] = inwards;
    forest.len += 1;
}

// Unmetered stream i from place u to place v, if one of them is reached and the other is not.
fn along(reached: &mut [bool; PLACES], forest: &mut Forest, i: u8, u: usize, v: usize)
    requires { Spanning reached.old forest.old.via forest.old.into forest.old.len × (u < places) × (v < places) }
    ensures { Spanning reached.new forest.new.via forest.new.into forest.new.len
        × ListedMore i forest.old.via forest.old.len forest.new.via forest.new.len }
{
    if reached[u] {
        reach(reached, forest, i, v, true);
        return;
    }
    if reached[v] {
        reach(reached, forest, i, u, false);
    }
}

// The numbers of the unmetered streams, if there are places to be reached, and how many they are.
fn list_unmetered(
    arcs: &[u8; ARCS],
    rows: &[u64; ROWS],
    listed: &mut [u8; MAX_STREAMS],
    all: usize,
) -> usize
    requires { Laying arcs.now rows.now × (length listed.old ≡ max_streams) }
    ensures { FreeOf arcs.now rows.now listed.new result }
{
    if all == 0 {
        return 0;
    }
    let count = count_of(arcs);
    let mut n: usize = 0;
    for i in 0..count {
        listed[n] = i as u8;
        n += usize::from(rows[4 * i] == 0);
    }
    n
}

// One pass over the unmetered streams.
fn pass(arcs: &[u8; ARCS], listed: &[u8], reached: &mut [bool; PLACES], forest: &mut Forest)
    requires { ((rs : List ℕ) × Laying arcs.now rs × ListedOf arcs.now rs listed.now (length listed.now))
        × Spanning reached.old forest.old.via forest.old.into forest.old.len }
    ensures { Spanning reached.new forest.new.via forest.new.into forest.new.len
        × ListedOn arcs.now listed.now forest.old.via forest.old.len forest.new.via forest.new.len }
{
    for i in listed {
        let stream = *i as usize;
        let u = end_at(arcs, 2 * stream);
        let v = end_at(arcs, 2 * stream + 1);
        along(reached, forest, *i, u, v);
    }
}

// How many places are not reached.
fn unreached(reached: &[bool; PLACES]) -> usize
    requires { length reached.now ≡ places }
    ensures { result ≡ count_to places (λ u. not (slice_index_or reached.now u false)) }
{
    reached.iter().filter(|x| !**x).count()
}

// A spanning forest from the labels, by passes: fewer than there are places, and none once all places are reached.
pub fn span(arcs: &[u8; ARCS], rows: &[u64; ROWS], labels: [u8; PLACES]) -> Forest
    requires { Laying arcs.now rows.now }
    ensures { (w : Laying arcs.now rows.now) → Routable w.streams w.n result }
{
    let mut reached = roots(labels);
    let all = unreached(&reached);
    let mut forest = Forest {
        via: [0; PLACES],
        into: [false; PLACES],
        len: 0,
    };
    let mut listed = [0u8; MAX_STREAMS];
    let n = list_unmetered(arcs, rows, &mut listed, all);
    for _ in 1..PLACES {
        if all <= forest.len {
            break;
        }
        pass(arcs, &listed[..n], &mut reached, &mut forest);
    }
    forest
}

// The held amount nearest to x within the hint's room.
fn clamp(x: u64) -> u64
    ensures { SizeWithin hint_room result }
{
    x.clamp(FLOW_SHIFT - HINT_ROOM, FLOW_SHIFT + HINT_ROOM)
}

// Place v hands its net on to place u.
fn hand_on(nets: &mut [u64; PLACES], u: usize, v: usize) -> u64
    requires { (length nets.old ≡ places) × (u < places) × (v < places) }
    ensures { length nets.new ≡ places }
{
    let z = nets[v].wrapping_sub(NET_SHIFT);
    nets[u] = nets[u].wrapping_add(z);
    nets[v] = NET_SHIFT;
    z
}

// The amount of a stream from place u to place v by which the place that it was to reach hands its net on.
fn routed(nets: &mut [u64; PLACES], u: usize, v: usize, into: bool) -> u64
    requires { (length nets.old ≡ places) × (u < places) × (v < places) }
    ensures { (length nets.new ≡ places) × SizeWithin hint_room result }
{
    if into {
        let z = hand_on(nets, u, v);
        clamp(FLOW_SHIFT.wrapping_sub(z))
    } else {
        let z = hand_on(nets, v, u);
        clamp(FLOW_SHIFT.wrapping_add(z))
    }
}

// The place reached last first, so that only labels keep a net.
pub fn route(arcs: &[u8; ARCS], f: Forest, nets: &mut [u64; PLACES], flows: &mut [u64; MAX_STREAMS])
    requires { Routing arcs.now f flows.old × (length nets.old ≡ places) }
    ensures { Routed arcs.now f flows.old flows.new }
{
    for k in (0..f.len).rev() {
        let i = f.via[k] as usize;
        let into = f.into[k];
        let u = end_at(arcs, 2 * i);
        let v = end_at(arcs, 2 * i + 1);
        flows[i] = routed(nets, u, v, into);
    }
}
