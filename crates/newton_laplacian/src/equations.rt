// The equations of one step: the Laplacian of the groups, with what each lacks on the right-hand side. They are lent, as large as the
// places need.
ghost use Rattle.std.specs.Prelude.{◌≡◌, suc, ◌<◌, ◌≤◌, length};
ghost use Rattle.plant_def.specs.Limits.{places};
ghost use Rattle.solve_arcs.specs.Cells.{count_of};
ghost use Rattle.newton_laplacian.specs.Ends.{Placed, Gathered};
ghost use Rattle.newton_laplacian.specs.Cells.{Fits, Joinable, Joining};

use crate::elimination::{eliminate, substitute};
use crate::readings::{conductance_of, reading_of};
use crate::{ENDS, METERS, amount_at, conductance_at, end_at, groups_of, in_range, start_at};
use plant_def::limits::PLACES;
use solve_arcs::{ARCS, ROWS, count_of, wide};

// Each row of the equations: its right-hand side, then a coefficient for each place. The numbers of all places' rows, of some and of few.
pub const WIDTH: usize = PLACES + 1;

pub const CELLS: usize = PLACES * WIDTH;

pub const SOME: usize = 17;

pub const SOME_CELLS: usize = SOME * WIDTH;

pub const FEW: usize = 9;

pub const FEW_CELLS: usize = FEW * WIDTH;

// What is left of the conductance of a stream whose amount is at an end of its range.
const SHUT: f64 = 0.0001;

// One coefficient, or right-hand side, is x more.
fn add(a: &mut [f64], row: usize, column: usize, x: f64)
    requires { Fits (suc row) a.old × (row < places) × (column ≤ places) }
    ensures { length a.new ≡ length a.old }
{
    a[row * WIDTH + column] += x;
}

// A stream of conductance c from group g to group h, which carries x.
fn between(a: &mut [f64], g: usize, h: usize, x: f64, c: f64)
    requires { Fits (suc g) a.old × Fits (suc h) a.old × (g < places) × (h < places) }
    ensures { length a.new ≡ length a.old }
{
    add(a, g, 0, x);
    add(a, h, 0, -x);
    add(a, g, g + 1, c);
    add(a, h, h + 1, c);
    if g < h {
        add(a, h, g + 1, -c);
    } else {
        add(a, g, h + 1, -c);
    }
}

// Stream i of a plant, its range left out of account.
fn join_read(a: &mut [f64], labels: &[u8; PLACES], arcs: &[u8; ARCS], rows: &[u64; ROWS], i: usize)
    requires { Joinable labels.now arcs.now rows.now a.old × (i < count_of arcs.now) }
    ensures { length a.new ≡ length a.old }
{
    let Some((g, h)) = groups_of(labels, arcs, rows, i) else {
        return;
    };
    let c = conductance_of(rows, i);
    let x = reading_of(rows, i, c);
    between(a, wide(g), wide(h), x, c);
}

// All streams of a plant.
fn join_all(a: &mut [f64], labels: &[u8; PLACES], arcs: &[u8; ARCS], rows: &[u64; ROWS])
    requires { Joinable labels.now arcs.now rows.now a.old }
    ensures { length a.new ≡ length a.old }
{
    let count = count_of(arcs);
    for i in 0..count {
        join_read(a, labels, arcs, rows, i);
    }
}

// The first count gathered streams, their ranges left out of account.
fn join_gathered(a: &mut [f64], ends: &[u8; ENDS], meters: &[f64; METERS], count: usize)
    requires { Joining ends.now meters.now count a.old }
    ensures { length a.new ≡ length a.old }
{
    for k in 0..count {
        between(
            a,
            start_at(ends, k),
            end_at(ends, k),
            meters[4 * k],
            conductance_at(meters, k),
        );
    }
}

// Gathered stream k, its range taken into account.
fn join(
    a: &mut [f64],
    ends: &[u8; ENDS],
    meters: &[f64; METERS],
    k: usize,
    potentials: &[f64; PLACES],
)
    requires { Joining ends.now meters.now (suc k) a.old }
    ensures { length a.new ≡ length a.old }
{
    let g = start_at(ends, k);
    let h = end_at(ends, k);
    let c = conductance_at(meters, k);
    let x = amount_at(meters, k, potentials[h] - potentials[g]);
    let y = in_range(meters, k, x);
    if x == y {
        between(a, g, h, x, c);
    } else {
        between(a, g, h, y, c * SHUT);
    }
}

// The first count gathered streams.
fn laplacian(
    a: &mut [f64],
    ends: &[u8; ENDS],
    meters: &[f64; METERS],
    count: usize,
    potentials: &[f64; PLACES],
)
    requires { Joining ends.now meters.now count a.old }
    ensures { length a.new ≡ length a.old }
{
    for k in 0..count {
        join(a, ends, meters, k, potentials);
    }
}

// The equations of n places are empty.
fn wipe(a: &mut [f64], n: usize)
    requires { Fits n a.old × (n ≤ places) }
    ensures { length a.new ≡ length a.old }
{
    a[..n * WIDTH].fill(0.0);
}

// The equations solved: x are the changes of n places.
fn solve(a: &mut [f64], n: usize, x: &mut [f64; PLACES])
    requires { Fits n a.old × (n ≤ places) × (length x.old ≡ places) }
    ensures { (length a.new ≡ length a.old) × (length x.new ≡ places) }
{
    eliminate(a, n);
    substitute(a, n, x);
}

// At first, with ranges left out of account, by equations that are empty: by how much each of n potentials, which are 0, has to change.
pub fn first_direction(
    a: &mut [f64],
    labels: &[u8; PLACES],
    arcs: &[u8; ARCS],
    rows: &[u64; ROWS],
    n: usize,
    x: &mut [f64; PLACES],
)
    requires { Placed n labels.now arcs.now rows.now × Fits n a.old × (length x.old ≡ places) }
    ensures { (length a.new ≡ length a.old) × (length x.new ≡ places) }
{
    join_all(a, labels, arcs, rows);
    solve(a, n, x);
}

// The same of gathered streams.
pub fn first_gathered(
    a: &mut [f64],
    ends: &[u8; ENDS],
    meters: &[f64; METERS],
    count: usize,
    n: usize,
    x: &mut [f64; PLACES],
)
    requires { Gathered n ends.now meters.now count × Fits n a.old × (length x.old ≡ places) }
    ensures { (length a.new ≡ length a.old) × (length x.new ≡ places) }
{
    join_gathered(a, ends, meters, count);
    solve(a, n, x);
}

// By how much each of n potentials has to change, as far as the equations at these potentials tell.
pub fn direction(
    a: &mut [f64],
    ends: &[u8; ENDS],
    meters: &[f64; METERS],
    count: usize,
    n: usize,
    potentials: &[f64; PLACES],
    x: &mut [f64; PLACES],
)
    requires { Gathered n ends.now meters.now count × Fits n a.old × (length x.old ≡ places) }
    ensures { (length a.new ≡ length a.old) × (length x.new ≡ places) }
{
    wipe(a, n);
    laplacian(a, ends, meters, count, potentials);
    solve(a, n, x);
}
