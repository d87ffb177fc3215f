// A guess at an overfull set: the groups that fall along Newton's direction. If no amounts within the ranges balance, what potentials
// cost has no least, and those of an overfull set fall on and on. Nothing rests on the guess: it is tested exactly where it is used.
ghost use Rattle.std.specs.Prelude.{◌≡◌, ℕ, suc, ◌^◌, ◌<◌, ◌≤◌, ◌&&◌, nat_le, length};
ghost use Rattle.plant_def.specs.Limits.{places};
ghost use Rattle.num_bytes.specs.Choice.{pick};
ghost use Rattle.num_bytes.specs.Sums.{bit};
ghost use Rattle.solve_def.specs.Model.{masked};
ghost use Rattle.newton_laplacian.specs.Ends.{Labels, Gathered};
ghost use Rattle.newton_descend.specs.Guesses.{smaller, halfway_of, fallen_of, least_into, into_at, crowded_by, guess_by, places_of, marks_of};

use crate::nets::{Streams, greater};
use newton_laplacian::{ENDS, METERS, end_at, start_at};
use plant_def::limits::PLACES;

// The second if it is less, else the first.
// Stays a function: of two zeros, and of a NaN and a number, `f64::min` may take the other one, and not `smaller`.
fn lesser(a: f64, b: f64) -> f64
    ensures { result ≡ smaller a b }
{
    if b < a { b } else { a }
}

// Halfway between the greatest and the least of some changes and of no change.
fn halfway(way: &[f64]) -> f64
    ensures { result ≡ halfway_of way.now (length way.now) }
{
    let mut most = 0.0f64;
    let mut least = 0.0f64;
    for change in way {
        most = greater(most, *change);
        least = lesser(least, *change);
    }
    (most + least) / 2.0
}

// The bit of group g if it is in a set, else 0.
fn bit_of(g: usize, inside: bool) -> u64
    requires { g < places }
    ensures { result ≡ pick inside (2 ^ g) 0 }
{
    u64::from(inside) << g
}

// Of some groups those whose change is less than that, as bits.
fn fallen(way: &[f64]) -> u64
    requires { length way.now ≤ places }
    ensures { result ≡ fallen_of way.now (length way.now) }
{
    let middle = halfway(way);
    let mut bits: u64 = 0;
    for (u, change) in way.iter().enumerate() {
        bits |= bit_of(u, *change < middle);
    }
    bits
}

// Whether group g is in a set.
fn is_in(bits: u64, g: usize) -> bool
    requires { g < places }
    ensures { result ≡ bit g bits }
{
    (bits >> g) % 2 == 1
}

// What a stream brings into a set at least, by whether its start and its end are in it, and the ends of its range.
fn least_into(start: bool, end: bool, low: f64, high: f64) -> f64
    ensures { result ≡ least_into start end low high }
{
    match (start, end) {
        (false, true) => low,
        (true, false) => -high,
        _ => 0.0,
    }
}

// The same of stream k.
fn into_at(streams: Streams, k: usize, bits: u64) -> f64
    requires { (n : ℕ) × Gathered n streams.ends.now streams.meters.now (suc k) }
    ensures { result ≡ into_at streams.entry.ends.now streams.entry.meters.now bits k }
{
    let start = is_in(bits, start_at(streams.ends, k));
    let end = is_in(bits, end_at(streams.ends, k));
    let meters = streams.meters;
    least_into(start, end, meters[4 * k + 2], meters[4 * k + 3])
}

// Whether the ranges bring more into a set than they let out.
fn crowded(streams: Streams, bits: u64) -> bool
    requires { (n : ℕ) × Gathered n streams.ends.now streams.meters.now streams.count }
    ensures { result ≡ crowded_by streams.entry.ends.now streams.entry.meters.now streams.entry.count bits }
{
    let mut sum = 0.0f64;
    for k in 0..streams.count {
        sum += into_at(streams, k, bits);
    }
    0.5 < sum
}

// The groups that fall along a direction, if the ranges bring more into them than they let out; else 0.
// Stays a number: the function is public, and its clause has 0 for no set (`guess_by`).
pub fn guess(
    ends: &[u8; ENDS],
    meters: &[f64; METERS],
    count: usize,
    way: &[f64; PLACES],
    n: usize,
) -> u64
    requires { Gathered n ends.now meters.now count }
    ensures { result ≡ guess_by ends.now meters.now count way.now n }
{
    let bits = fallen(&way[..n]);
    let streams = Streams {
        ends,
        meters,
        count,
    };
    if crowded(streams, bits) { bits } else { 0 }
}

// The places whose labels are in a set, as bits.
// Stays beside `fallen`: one function for both would take a closure of the index, and is no plainer.
pub fn places_of(bits: u64, labels: &[u8; PLACES]) -> u64
    requires { Labels labels.now }
    ensures { result ≡ places_of bits labels.now }
{
    let mut all: u64 = 0;
    for (u, label) in labels.iter().enumerate() {
        all |= bit_of(u, is_in(bits, usize::from(*label)));
    }
    all
}

// Whether place u is in a set, and a place of a plant of n units.
fn own_mark(bits: u64, u: usize, n: u8) -> bool
    requires { u < places }
    ensures { result ≡ (bit u bits && nat_le u n) }
{
    is_in(bits, u) && u <= usize::from(n)
}

// Of a set of places the marks of those of a plant of n units.
pub fn marks_of(bits: u64, n: u8) -> [bool; PLACES]
    ensures { result ≡ masked n (marks_of bits) }
{
    let mut marked = [false; PLACES];
    for (u, mark) in marked.iter_mut().enumerate() {
        *mark = own_mark(bits, u, n);
    }
    marked
}
