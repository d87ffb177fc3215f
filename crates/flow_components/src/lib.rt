// Groups of places, formed in one pass over the streams: each place has a label, the lowest place of its group.
#![tactic(auto)]

ghost use Rattle.std.specs.Prelude.{◌≡◌, ◌≤◌, ◌<◌, ℕ, length};
ghost use Rattle.plant_def.specs.Limits.{max_units, places};
ghost use Rattle.plant_def.specs.Within.{WithinStream};
ghost use Rattle.plant_def.specs.declared.Plant.{Plant};
ghost use Rattle.plant_def.specs.declared.Stream.{Stream};
ghost use Rattle.flow_def.specs.Groups.{StepSays, Groups};
ghost use Rattle.flow_def.specs.Labels.{own_numbers, renamed, relabelled, one_label, own_labels};
ghost use Rattle.plant_def.specs.Says.{plant_of};
ghost use Rattle.flow_def.specs.Calls.{counting};
ghost use Rattle.solve_arcs_fill.specs.Plants.{LaidOf};

use flow_def::Which;
use plant_def::Stream;
use plant_def::limits::PLACES;
use solve_arcs::{ARCS, ROWS, count_of, end_at};

// Before the first step each place has its own number.
pub fn own_numbers() -> [u8; PLACES]
    ensures { result ≡ own_numbers }
{
    let mut labels = [0u8; PLACES];
    for own in 0..PLACES {
        labels[own] = own as u8;
    }
    labels
}

// A label, `lo` where it was `hi`.
fn renamed_label(x: u8, lo: u8, hi: u8) -> u8
    ensures { result ≡ renamed lo hi x }
{
    if x == hi {
        return lo;
    }
    x
}

// The label `hi` becomes `lo` everywhere.
pub fn rename(labels: &mut [u8; PLACES], lo: u8, hi: u8)
    requires { length labels.old ≡ places }
    ensures { labels.new ≡ relabelled lo hi labels.old }
{
    for x in labels.iter_mut() {
        *x = renamed_label(*x, lo, hi);
    }
}

// A step over a stream from place u to place v, which counts or not: the labels of the groups by it and those before it.
pub fn join(labels: &mut [u8; PLACES], u: usize, v: usize, counts: bool)
    requires { (u < places) × (v < places) × (length labels.old ≡ places) }
    ensures { (s : Stream) → s.from ≡ u → s.to ≡ v → StepSays counts s labels.old labels.new }
{
    if !counts {
        return;
    }
    let a = labels[u];
    let b = labels[v];
    if a == b {
        return;
    }
    if a <= b {
        rename(labels, a, b);
        return;
    }
    rename(labels, b, a);
}

// A step takes the labels of the groups and the next stream, which counts or not.
pub fn step(labels: &mut [u8; PLACES], s: Stream, counts: bool)
    requires { WithinStream max_units s × (length labels.old ≡ places) }
    ensures { StepSays counts s labels.old labels.new }
{
    join(labels, s.from as usize, s.to as usize, counts);
}

// Whether a stream's ends have one label.
pub fn one_label(labels: &[u8; PLACES], s: Stream) -> bool
    requires { WithinStream max_units s × (length labels.now ≡ places) }
    ensures { result ≡ one_label labels.now s.from s.to }
{
    let u = s.from as usize;
    let v = s.to as usize;
    labels[u] == labels[v]
}

// How many of the places 0 to n bear their own number.
pub fn own_labels(labels: [u8; PLACES], n: u8) -> u8
    requires { n ≤ max_units }
    ensures { result ≡ own_labels labels n }
{
    let mut c: u8 = 1;
    for u in 1..=n {
        if labels[u as usize] == u {
            c += 1;
        }
    }
    c
}

// Whether a stream counts, whatever its number.
fn counts(which: Which, metered: bool) -> bool
    ensures { (i : ℕ) (s : Stream) → s.metered ≡ metered → result ≡ counting which i s }
{
    match which {
        Which::Every => true,
        Which::Unmetered => !metered,
    }
}

// The labels of the groups by all streams that count: a step for each stream, in one pass.
pub fn group(arcs: &[u8; ARCS], rows: &[u64; ROWS], which: Which) -> [u8; PLACES]
    requires { (p : Plant) × LaidOf p arcs.now rows.now }
    ensures { (p : Plant) → LaidOf p arcs.now rows.now → Groups (counting which) (plant_of p).streams p.count result }
{
    let n = count_of(arcs);
    let mut labels = own_numbers();
    for i in 0..n {
        let u = end_at(arcs, 2 * i);
        let v = end_at(arcs, 2 * i + 1);
        let c = counts(which, 0 < rows[4 * i]);
        join(&mut labels, u, v, c);
    }
    labels
}
