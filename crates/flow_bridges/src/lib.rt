// The streams that join two groups, in one pass, and on which side of each a place lies.
#![tactic(auto)]

ghost use Rattle.std.specs.Prelude.{◌≡◌, ◌<◌, length, eqb, not};
ghost use Rattle.std.specs.Int.Bits.{bit_xor};
ghost use Rattle.num_bytes.specs.Choice.{pick};
ghost use Rattle.plant_def.specs.declared.Plant.{Plant};
ghost use Rattle.plant_def.specs.declared.Stream.{Stream};
ghost use Rattle.plant_def.specs.Limits.{places};
ghost use Rattle.flow_def.specs.Sides.{taken_by, way_between, looped_by, turned, parted};
ghost use Rattle.flow_def.specs.Groups.{StepSays};
ghost use Rattle.flow_def.specs.Calls.{Bridging};
ghost use Rattle.solve_arcs_fill.specs.Plants.{LaidOf};
ghost use Rattle.flow_bridges.specs.Runs.{Runs};

use flow_components;
use flow_def::Bridges;
use plant_def::limits::{MAX_STREAMS, PLACES};
use solve_arcs::{ARCS, ROWS, count_of, end_at};

// The label that a stream from place u to place v takes away.
fn taken_by(labels: &[u8; PLACES], u: usize, v: usize, metered: bool) -> u8
    requires { (u < places) × (v < places) × (length labels.now ≡ places) }
    ensures { (s : Stream) → Runs s u v → s.metered ≡ metered → result ≡ taken_by labels.now s }
{
    let a = labels[u];
    let b = labels[v];
    if metered | (a == b) { 0 } else { a.max(b) }
}

// The streams on the way between two places, by their bits.
fn way_between(sides: &[u64; PLACES], u: usize, v: usize) -> u64
    requires { (u < places) × (v < places) × (length sides.now ≡ places) }
    ensures { (s : Stream) → Runs s u v → result ≡ way_between sides.now s }
{
    sides[u] ^ sides[v]
}

// The streams that lie on a loop with a stream, where it is unmetered and earlier ones join its ends.
fn looped_by(labels: &[u8; PLACES], sides: &[u64; PLACES], u: usize, v: usize, metered: bool) -> u64
    requires { (u < places) × (v < places) × (length labels.now ≡ places) × (length sides.now ≡ places) }
    ensures { (s : Stream) → Runs s u v → s.metered ≡ metered → result ≡ looped_by labels.now sides.now s }
{
    let way = way_between(sides, u, v);
    let apart = labels[u] != labels[v];
    if metered | apart { 0 } else { way }
}

// The sides of a place, changed where its label is h.
fn turned_sides(x: u64, label: u8, h: u8, by: u64) -> u64
    ensures { result ≡ pick (eqb label h) (bit_xor x by) x }
{
    if label == h {
        return x ^ by;
    }
    x
}

// The places labelled h change sides.
fn turn(sides: &mut [u64; PLACES], labels: &[u8; PLACES], h: u8, by: u64)
    requires { (length sides.old ≡ places) × (length labels.now ≡ places) }
    ensures { sides.new ≡ turned h by labels.now sides.old }
{
    for (u, x) in sides.iter_mut().enumerate() {
        *x = turned_sides(*x, labels[u], h, by);
    }
}

// A stream takes label h away.
fn part(sides: &mut [u64; PLACES], labels: &[u8; PLACES], u: usize, v: usize, h: u8)
    requires { (u < places) × (v < places) × (length sides.old ≡ places) × (length labels.now ≡ places) × (h < places) }
    ensures { (s : Stream) → Runs s u v → sides.new ≡ parted h labels.now s sides.old }
{
    if h == 0 {
        return;
    }
    let way = way_between(sides, u, v);
    turn(sides, labels, h, way ^ (1u64 << h));
}

// One stream more, which takes label h away: labels and sides after it, and the bits of the streams that lie on a loop with it.
fn pass(
    labels: &mut [u8; PLACES],
    sides: &mut [u64; PLACES],
    u: usize,
    v: usize,
    metered: bool,
    h: u8,
) -> u64
    requires u_lt_places { (u < places) × (v < places) × (length labels.old ≡ places) × (length sides.old ≡ places) × (h < places) }
    requires h_value { (s : Stream) → Runs s u v → s.metered ≡ metered → h ≡ taken_by labels.old s }
    ensures value { (s : Stream) → Runs s u v → s.metered ≡ metered → result ≡ looped_by labels.old sides.old s }
    ensures sides_after { (s : Stream) → Runs s u v → sides.new ≡ parted h labels.old s sides.old }
    ensures step_says { (s : Stream) → Runs s u v → s.metered ≡ metered → StepSays (not s.metered) s labels.old labels.new }
{
    let looped = looped_by(labels, sides, u, v, metered);
    if h == 0 {
        return looped;
    }
    part(sides, labels, u, v, h);
    flow_components::join(labels, u, v, true);
    looped
}

// The labels by the unmetered streams, those that the streams take away, and the loops.
pub fn bridges_of(arcs: &[u8; ARCS], rows: &[u64; ROWS]) -> Bridges
    requires { (p : Plant) × LaidOf p arcs.now rows.now }
    ensures { (p : Plant) → LaidOf p arcs.now rows.now → Bridging p result }
{
    let n = count_of(arcs);
    let mut labels = flow_components::own_numbers();
    let mut sides = [0u64; PLACES];
    let mut taken = [0u8; MAX_STREAMS];
    let mut looped: u64 = 1;
    for i in 0..n {
        let u = end_at(arcs, 2 * i);
        let v = end_at(arcs, 2 * i + 1);
        let metered = 0 < rows[4 * i];
        let h = taken_by(&labels, u, v, metered);
        taken[i] = h;
        looped |= pass(&mut labels, &mut sides, u, v, metered, h);
    }
    Bridges {
        labels,
        taken,
        looped,
    }
}
