// A stream's row as real numbers: its conductance, its reading, and the ends of its range.
ghost use Rattle.std.specs.Prelude.{◌≡◌, ◌≤◌};
ghost use Rattle.plant_def.specs.Limits.{max_streams};
ghost use Rattle.newton_laplacian.specs.Readings.{Read, conductance_of, reading_by, low_end, high_end, ranged_to};

use solve_arcs::ROWS;
use solve_def::sizes::{FLOW_SHIFT, MOST_FLOW, MOST_READING};

// Where a stream has no range: no amount comes so far.
const FAR: f64 = 1000000000000000000000000.0;

// Twice the least reading, as it is held.
const LEAST: u64 = 2 * (FLOW_SHIFT - MOST_READING);

// How much the amount of stream i, which is metered, changes with the potential.
pub fn conductance_of(rows: &[u64; ROWS], i: usize) -> f64
    requires { Read rows.now i }
    ensures { result ≡ conductance_of rows.now i }
{
    0.5 / rows[4 * i] as u32 as f64
}

// Its reading; c is its conductance. (What is less than the reading by the least one is exact, times twice the weight.)
pub fn reading_of(rows: &[u64; ROWS], i: usize, c: f64) -> f64
    requires { Read rows.now i }
    ensures { result ≡ reading_by rows.now i c }
{
    (rows[4 * i + 1] - rows[4 * i] * LEAST) as i64 as f64 * c - MOST_READING as f64
}

// The ends of its range.
pub fn low_of(rows: &[u64; ROWS], i: usize) -> f64
    requires { Read rows.now i }
    ensures { result ≡ low_end FAR rows.now i }
{
    if rows[4 * i + 3] < MOST_FLOW {
        return rows[4 * i + 2] as i64 as f64 - FLOW_SHIFT as f64;
    }
    -FAR
}

pub fn high_of(rows: &[u64; ROWS], i: usize) -> f64
    requires { Read rows.now i }
    ensures { result ≡ high_end FAR rows.now i }
{
    let high = rows[4 * i + 3];
    if high < MOST_FLOW {
        return high as i64 as f64 - FLOW_SHIFT as f64;
    }
    FAR
}

// Whether some of the first n streams has a range.
pub fn some_range(rows: &[u64; ROWS], n: usize) -> bool
    requires { n ≤ max_streams }
    ensures { result ≡ ranged_to rows.now n }
{
    for i in 0..n {
        if rows[4 * i + 3] < MOST_FLOW {
            return true;
        }
    }
    false
}
