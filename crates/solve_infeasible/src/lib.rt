// The test of a set of places: whether it must take in more than it can let out, by the ranges of the streams across its edge.
#![tactic(auto)]

ghost use Rattle.std.specs.Prelude.{◌≡◌, ◌≤◌, true, false};
ghost use Rattle.solve_def.specs.Sizes.{most_flow};
ghost use Rattle.solve_def.specs.Full as F;
ghost use Rattle.solve_def.specs.Full.{may_cross, halt_at};
ghost use Rattle.solve_arcs.specs.ArcNeeds.{Laying, OfStreams};

use plant_def::limits::PLACES;
use solve_arcs::{ARCS, ROWS, count_of, end_at};
use solve_def::Halt;
use solve_def::sizes::{FLOW_SHIFT, MOST_FLOW};

// Whether a stream may stand across the edge of a set, by whether its start and its end are in the set, and its low.
fn may_cross(start: bool, end: bool, low: u64) -> bool
    ensures { result ≡ may_cross start end low }
{
    start == end || 0 < low
}

// What it presses into the set at least.
fn pressed(start: bool, end: bool, low: u64, high: u64) -> u64
    requires { high ≤ most_flow }
    ensures { result ≡ F.pressed start end low high }
{
    match (start, end) {
        (true, false) => MOST_FLOW - high,
        (false, true) => low,
        _ => FLOW_SHIFT,
    }
}

// Every stream across has a range, and the lows in sum to more than the highs out.
pub fn overfull(arcs: &[u8; ARCS], rows: &[u64; ROWS], marked: &[bool; PLACES]) -> bool
    requires { Laying arcs.now rows.now }
    ensures { OfStreams arcs.now rows.now (λ ss n. result ≡ F.overfull ss marked.now) }
{
    let n = count_of(arcs);
    let mut sum: u64 = 0;
    for i in 0..n {
        let start = marked[end_at(arcs, 2 * i)];
        let end = marked[end_at(arcs, 2 * i + 1)];
        let low = rows[4 * i + 2];
        if !may_cross(start, end, low) {
            return false;
        }
        sum += pressed(start, end, low, rows[4 * i + 3]);
    }
    n as u64 * FLOW_SHIFT < sum
}

// Where no improvement can be made: the visited places, if they are such a set.
pub fn tested(arcs: &[u8; ARCS], rows: &[u64; ROWS], visited: [bool; PLACES]) -> Halt
    requires { Laying arcs.now rows.now }
    ensures { OfStreams arcs.now rows.now (λ ss n. result ≡ halt_at ss visited) }
{
    if overfull(arcs, rows, &visited) {
        return Halt {
            full: true,
            marked: visited,
        };
    }
    Halt {
        full: false,
        marked: [false; PLACES],
    }
}
