// Elimination (LDLᵀ) from the last place to the first, the outside, and substitution from the first to the last.
ghost use Rattle.std.specs.Prelude.{◌≡◌, suc, ◌<◌, ◌≤◌, length};
ghost use Rattle.plant_def.specs.Limits.{places};
ghost use Rattle.newton_laplacian.specs.Cells.{Fits, change_at};

use crate::equations::WIDTH;
use plant_def::limits::PLACES;

// A pivot below this vanishes: one of each connected piece, and the places that are no label.
const LEAST_PIVOT: f64 = 0.0000000000001;

// Row i, up to its diagonal, less f times row k.
fn take_row(a: &mut [f64], k: usize, i: usize, f: f64)
    requires { Fits (suc k) a.old × (k < places) × (i < k) }
    ensures { length a.new ≡ length a.old }
{
    if f == 0.0 {
        return;
    }
    let from = k * WIDTH;
    let to = i * WIDTH;
    for j in 0..i + 2 {
        a[to + j] -= f * a[from + j];
    }
}

// Place k is eliminated from the rows before it.
fn clear(a: &mut [f64], k: usize)
    requires { Fits (suc k) a.old × (k < places) }
    ensures { length a.new ≡ length a.old }
{
    let row = k * WIDTH + 1;
    let pivot = a[row + k];
    if pivot < LEAST_PIVOT {
        return;
    }
    let inverse = 1.0 / pivot;
    for i in 0..k {
        let f = a[row + i] * inverse;
        take_row(a, k, i, f);
    }
}

// The last of n places first.
pub fn eliminate(a: &mut [f64], n: usize)
    requires { Fits n a.old × (n ≤ places) }
    ensures { length a.new ≡ length a.old }
{
    for k in (0..n).rev() {
        clear(a, k);
    }
}

// The change of place k, from those before it; 0 where the pivot vanished.
fn change_at(a: &[f64], x: &[f64; PLACES], k: usize) -> f64
    requires { Fits (suc k) a.now × (length x.now ≡ places) × (k < places) }
    ensures { result ≡ change_at LEAST_PIVOT a.now x.now k }
{
    let row = k * WIDTH + 1;
    let pivot = a[row + k];
    if pivot < LEAST_PIVOT {
        return 0.0;
    }
    let mut rest = a[row - 1];
    for j in 0..k {
        rest -= a[row + j] * x[j];
    }
    rest / pivot
}

// The change of each of n places.
pub fn substitute(a: &[f64], n: usize, x: &mut [f64; PLACES])
    requires { Fits n a.now × (n ≤ places) × (length x.old ≡ places) }
    ensures { length x.new ≡ places }
{
    for k in 0..n {
        x[k] = change_at(a, x, k);
    }
}
