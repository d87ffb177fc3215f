// What the groups' nets come to at real potentials, each amount brought into its range.
ghost use Rattle.std.specs.Prelude.{◌≡◌, ℕ, suc, ◌≤◌, length, min};
ghost use Rattle.plant_def.specs.Limits.{places};
ghost use Rattle.newton_laplacian.specs.Ends.{Gathered};
ghost use Rattle.newton_descend.specs.Nets.{greatest_to, larger, product_to, moved_to, brought, nets_to};

use newton_laplacian::{ENDS, METERS, amount_at, end_at, in_range, start_at};
use plant_def::limits::PLACES;

// Gathered streams: the groups of their ends, their meters, and how many there are.
#[derive(Clone, Copy)]
pub struct Streams<'a> {
    pub ends: &'a [u8; ENDS],
    pub meters: &'a [f64; METERS],
    pub count: usize,
}

// What stream k carries leaves the group of its start and comes to that of its end.
fn bring(nets: &mut [f64; PLACES], streams: Streams, k: usize, potentials: &[f64; PLACES])
    requires { (n : ℕ) × Gathered n streams.ends.now streams.meters.now (suc k) }
    ensures { nets.new ≡ brought streams.entry.ends.now streams.entry.meters.now potentials.now k nets.old }
{
    let g = start_at(streams.ends, k);
    let h = end_at(streams.ends, k);
    let x = in_range(
        streams.meters,
        k,
        amount_at(streams.meters, k, potentials[h] - potentials[g]),
    );
    nets[g] -= x;
    nets[h] += x;
}

// The nets by all streams.
pub fn nets_at(streams: Streams, potentials: &[f64; PLACES]) -> [f64; PLACES]
    requires { (n : ℕ) × Gathered n streams.ends.now streams.meters.now streams.count }
    ensures { result ≡ nets_to streams.entry.ends.now streams.entry.meters.now potentials.now streams.entry.count }
{
    let mut nets = [0.0; PLACES];
    for k in 0..streams.count {
        bring(&mut nets, streams, k, potentials);
    }
    nets
}

// The second if it is greater, else the first.
// Stays a function: of two zeros, and of a NaN and a number, `f64::max` may take the other one, and not `larger`.
pub fn greater(a: f64, b: f64) -> f64
    ensures { result ≡ larger a b }
{
    if a < b { b } else { a }
}

// The greatest size of one of some nets.
pub fn greatest_net(nets: &[f64]) -> f64
    ensures { result ≡ greatest_to nets.now (length nets.now) }
{
    let mut most = 0.0f64;
    for z in nets {
        most = greater(greater(most, *z), -*z);
    }
    most
}

// The sum of products, place by place.
pub fn product(x: &[f64], y: &[f64]) -> f64
    ensures { result ≡ product_to x.now y.now (min (length x.now) (length y.now)) }
{
    let mut sum = 0.0f64;
    for (a, b) in x.iter().zip(y) {
        sum += *a * *b;
    }
    sum
}

// r are n potentials moved along a direction by the factor t.
// Stays an index: three arrays go side by side, one of them written, and a `zip` of the other two would not be plainer.
pub fn moved(
    potentials: &[f64; PLACES],
    direction: &[f64; PLACES],
    t: f64,
    n: usize,
    r: &mut [f64; PLACES],
)
    requires { n ≤ places }
    ensures { r.new ≡ moved_to potentials.now direction.now t r.old n }
{
    for u in 0..n {
        r[u] = potentials[u] + t * direction[u];
    }
}
