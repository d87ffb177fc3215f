// Potentials of places (node potentials) at which the real-number optimum of a plant balances, made whole.
#![tactic(auto)]

use descents::descend;
use guesses::places_of;
use nets::{Streams, greater};
use newton_laplacian::equations::{CELLS, FEW, FEW_CELLS, SOME, SOME_CELLS, first_direction};
use newton_laplacian::readings::some_range;
use newton_laplacian::{ENDS, METERS, gather};
use plant_def::limits::PLACES;
use solve_arcs::{ARCS, ROWS, count_of};
use std::num::truncating_f64_to_u64;

mod descents;
pub mod guesses;
mod nets;

ghost use Rattle.std.specs.Prelude.{◌≡◌, ◌+◌, ◌≤◌, length};
ghost use Rattle.plant_def.specs.Limits.{places};
ghost use Rattle.newton_laplacian.specs.Ends.{Labels, Placed};
ghost use Rattle.newton_laplacian.specs.Cells.{Fits};
ghost use Rattle.newton_descend.specs.Nets.{highest_to};
ghost use Rattle.newton_descend.specs.Levels.{Banded, whole_of, at_labels, Level};

// The greatest of some potentials, 0 at least.
fn greatest(x: &[f64]) -> f64
    ensures { result ≡ highest_to x.now (length x.now) }
{
    let mut most = 0.0f64;
    for y in x {
        most = greater(most, *y);
    }
    most
}

// The whole number nearest to x, 0 if there is none.
fn whole(x: f64) -> u64
    ensures { result ≡ whole_of x }
{
    let y = x + 0.5;
    if y > -1.0 && y < 18446744073709551616.0 {
        truncating_f64_to_u64(y)
    } else {
        0
    }
}

// The greatest of n potentials becomes top, the others as much lower as they are, by band at most. The places after them have top.
pub fn lowered(x: &[f64; PLACES], n: usize, top: u64, band: u64) -> [u64; PLACES]
    requires { (n ≤ places) × (band ≤ top) }
    ensures { Banded top band result }
{
    let most = greatest(&x[..n]);
    let mut r = [top; PLACES];
    for (u, y) in x[..n].iter().enumerate() {
        r[u] = top - whole(most - *y).min(band);
    }
    r
}

// The potential of each place's label.
pub fn by_label(potentials: [u64; PLACES], labels: [u8; PLACES]) -> [u64; PLACES]
    requires { Labels labels }
    ensures { result ≡ at_labels potentials labels }
{
    let mut r = potentials;
    for (u, label) in labels.iter().enumerate() {
        let g = usize::from(*label);
        r[u] = potentials[g];
    }
    r
}

// Real potentials of n places of a plant that has a range: with its streams gathered, as they are gone over again and again.
// If a set of labels looks overfull, that set as bits.
fn with_ranges(
    a: &mut [f64],
    labels: &[u8; PLACES],
    arcs: &[u8; ARCS],
    rows: &[u64; ROWS],
    n: usize,
    x: &mut [f64; PLACES],
) -> Option<u64>
    requires { (1 ≤ n) × Placed n labels.now arcs.now rows.now × Fits n a.old }
{
    let mut ends = [0u8; ENDS];
    let mut meters = [0.0f64; METERS];
    let count = gather(labels, arcs, rows, &mut ends, &mut meters);
    let streams = Streams {
        ends: &ends,
        meters: &meters,
        count,
    };
    descend(a, streams, n, x)
}

// Real potentials of n places, by empty equations that are lent.
fn find_in(
    a: &mut [f64],
    labels: &[u8; PLACES],
    arcs: &[u8; ARCS],
    rows: &[u64; ROWS],
    n: usize,
    x: &mut [f64; PLACES],
) -> Option<u64>
    requires { (1 ≤ n) × Placed n labels.now arcs.now rows.now × Fits n a.old }
{
    if some_range(rows, count_of(arcs)) {
        with_ranges(a, labels, arcs, rows, n, x)
    } else {
        first_direction(a, labels, arcs, rows, n, x);
        None
    }
}

// Equations as large as n places need. (To fill all of them with 0 would take longer than to solve a few.)
fn find(
    labels: &[u8; PLACES],
    arcs: &[u8; ARCS],
    rows: &[u64; ROWS],
    n: usize,
    x: &mut [f64; PLACES],
) -> Option<u64>
    requires { (1 ≤ n) × Placed n labels.now arcs.now rows.now }
{
    if n <= FEW {
        find_in(&mut [0.0f64; FEW_CELLS], labels, arcs, rows, n, x)
    } else if n <= SOME {
        find_in(&mut [0.0f64; SOME_CELLS], labels, arcs, rows, n, x)
    } else {
        find_in(&mut [0.0f64; CELLS], labels, arcs, rows, n, x)
    }
}

// Potentials from top − band to top, one for each label. If a set of places looks overfull, it becomes the guess, as bits.
pub fn potentials_of(
    units: u8,
    labels: [u8; PLACES],
    arcs: &[u8; ARCS],
    rows: &[u64; ROWS],
    top: u64,
    band: u64,
    guess: &mut u64,
) -> [u64; PLACES]
    requires { Labels labels × Placed (units + 1) labels arcs.now rows.now × (band ≤ top) }
    ensures { Level labels top band result }
{
    let n = usize::from(units) + 1;
    let mut x = [0.0f64; PLACES];
    if let Some(bits) = find(&labels, arcs, rows, n, &mut x) {
        *guess = places_of(bits, &labels);
    }
    by_label(lowered(&x, n, top, band), labels)
}
