// Newton's method on the dual of the real-number problem: potentials whose clamped amounts balance. What they cost is convex and its slope
// along a direction is the sum of nets times changes, which rises; so a step is as long as the slope is not above 0.
ghost use Rattle.std.specs.Prelude.{◌≡◌};
ghost use Rattle.newton_laplacian.specs.Ends.{Gathered};
ghost use Rattle.newton_laplacian.specs.Cells.{Fits};
ghost use Rattle.newton_descend.specs.Descents.{slope_at, length_between, narrowed_by, step_length};

use crate::guesses::guess;
use crate::nets::{Streams, greatest_net, moved, nets_at, product};
use newton_laplacian::equations::{direction, first_gathered};
use plant_def::limits::PLACES;

// How many steps there are at most, how near to 0 the nets have to come, and how often the length of a step is sought.
const STEPS: usize = 23;

const NEAR: f64 = 4.0;

const TRIALS: usize = 12;

// Two lengths of a step between which the best one lies, and the slopes there: at most 0, and above 0.
#[derive(Clone, Copy)]
struct Bracket {
    short: f64,
    long: f64,
    falling: f64,
    rising: f64,
}

// The slope after a step of length t.
fn slope(streams: Streams, potentials: &[f64; PLACES], way: &[f64; PLACES], n: usize, t: f64) -> f64
    requires { Gathered n streams.ends.now streams.meters.now streams.count }
    ensures { result ≡ slope_at streams.entry.ends.now streams.entry.meters.now streams.entry.count potentials.now way.now n t }
{
    let mut there = [0.0f64; PLACES];
    moved(potentials, way, t, n, &mut there);
    let nets = nets_at(streams, &there);
    product(&nets[..n], &way[..n])
}

// A length between two: halfway each third time, else where a straight line has the slope 0.
fn between(b: Bracket, trial: usize) -> f64
    ensures { result ≡ length_between b trial }
{
    if trial % 3 == 2 {
        (b.short + b.long) / 2.0
    } else {
        b.short - (b.long - b.short) * b.falling / (b.rising - b.falling)
    }
}

// The bracket with the slope at t known.
fn narrowed(b: Bracket, t: f64, at: f64) -> Bracket
    ensures { result ≡ narrowed_by b t at }
{
    if at > 0.0 {
        Bracket {
            long: t,
            rising: at,
            ..b
        }
    } else {
        Bracket {
            short: t,
            falling: at,
            ..b
        }
    }
}

// How long a step is: 1 if the slope is not above 0 there, else until it is within a tenth of what it was at first.
fn step_length(
    streams: Streams,
    potentials: &[f64; PLACES],
    way: &[f64; PLACES],
    n: usize,
    first: f64,
) -> f64
    requires { Gathered n streams.ends.now streams.meters.now streams.count }
    ensures { result ≡ step_length (slope_at streams.entry.ends.now streams.entry.meters.now streams.entry.count potentials.now way.now n) first }
{
    let whole = slope(streams, potentials, way, n, 1.0);
    if !(whole > 0.0) {
        return 1.0;
    }
    let mut b = Bracket {
        short: 0.0,
        long: 1.0,
        falling: first,
        rising: whole,
    };
    for trial in 0..TRIALS {
        let t = between(b, trial);
        b = narrowed(b, t, slope(streams, potentials, way, n, t));
        if b.falling > 0.1 * first {
            return b.short;
        }
    }
    b.short
}

// A guess at every fourth step, from the second on (the first is step 0). At the first one few sets of streams are at the ends of their
// ranges, and a guess at each step would slow plants whose ranges can be kept.
fn guess_at(step: usize, streams: Streams, way: &[f64; PLACES], n: usize) -> Option<u64>
    requires { Gathered n streams.ends.now streams.meters.now streams.count }
{
    if step % 4 != 1 {
        return None;
    }
    let bits = guess(streams.ends, streams.meters, streams.count, way, n);
    (bits != 0).then_some(bits)
}

// Real potentials of n places, one for each label: at first without ranges, by equations that are empty, then step by step with them.
// If a set of labels looks overfull, that set as bits.
pub(super) fn descend(
    a: &mut [f64],
    streams: Streams,
    n: usize,
    potentials: &mut [f64; PLACES],
) -> Option<u64>
    requires { Gathered n streams.ends.now streams.meters.now streams.count × Fits n a.old }
{
    first_gathered(
        a,
        streams.ends,
        streams.meters,
        streams.count,
        n,
        potentials,
    );
    let mut way = [0.0f64; PLACES];
    for step in 0..STEPS {
        let nets = nets_at(streams, potentials);
        if greatest_net(&nets[..n]) < NEAR {
            return None;
        }
        direction(
            a,
            streams.ends,
            streams.meters,
            streams.count,
            n,
            potentials,
            &mut way,
        );
        let first = product(&nets[..n], &way[..n]);
        if !(first < 0.0) {
            return None;
        }
        if let Some(bits) = guess_at(step, streams, &way, n) {
            return Some(bits);
        }
        let t = step_length(streams, potentials, &way, n, first);
        let before = *potentials;
        moved(&before, &way, t, n, potentials);
    }
    None
}
