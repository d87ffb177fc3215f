// The set to buy, and which streams are looked at before which.
#![tactic(auto)]

ghost use Rattle.std.specs.Prelude.{◌≡◌, not, ◌&&◌, ◌||◌, eqb, ltb, ℕ, ◌+◌, ◌<◌, ◌≤◌, ◌^◌, length, get_or};
ghost use Rattle.plant_def.specs.Limits.{max_streams};
ghost use Rattle.plant_def.specs.Within.{Accepted};
ghost use Rattle.plant_def.specs.Says.{plant_of};
ghost use Rattle.flow_def.specs.Labels.{labels_of};
ghost use Rattle.purchase_def.specs.Purchases.{max_price};
ghost use Rattle.purchase_def.specs.Says.{none_bought, bought_of};
ghost use Rattle.purchase_def.specs.Views.{held_as};
ghost use Rattle.purchase_def.specs.Choosing.{dearer, bought, to_buy, with_more};

use flow_components::{one_label, own_numbers, step};
use plant_def::limits::{MAX_STREAMS, PLACES};
use plant_def::{Plant, Stream};
use purchase_def::Bought;

// Whether stream j, at price b, goes before stream i, at price a.
fn goes(a: u32, b: u32, i: usize, j: usize) -> bool
    ensures { result ≡ (ltb a b || (eqb a b && ltb i j)) }
{
    (a, i) < (b, j)
}

// Whether it counts: it is unmetered too.
pub fn counts(s: Stream, a: u32, b: u32, i: usize, j: usize) -> bool
    ensures { result ≡ (not s.metered && (ltb a b || (eqb a b && ltb i j))) }
{
    !s.metered && goes(a, b, i, j)
}

// Nothing is bought yet.
fn nothing() -> Bought
    ensures { held_as result ≡ none_bought 0 }
{
    Bought {
        count: 0,
        streams: [0; MAX_STREAMS],
        price: 0,
    }
}

// The labels by the unmetered streams that go before stream i.
fn labels_before(p: Plant, prices: [u32; MAX_STREAMS], i: usize) -> [u8; PLACES]
    requires { Accepted p × (i < max_streams) }
    ensures { result ≡ labels_of (dearer (λ k. get_or prices k 0) i) (plant_of p) }
{
    let n = p.count as usize;
    let a = prices[i];
    let mut labels = own_numbers();
    for j in 0..n {
        let s = p.streams[j];
        let c = counts(s, a, prices[j], i, j);
        step(&mut labels, s, c);
    }
    labels
}

// Whether stream i is bought.
fn is_bought(p: Plant, prices: [u32; MAX_STREAMS], i: usize) -> bool
    requires { Accepted p × (i < p.count) }
    ensures { result ≡ bought (plant_of p) (λ k. get_or prices k 0) i }
{
    let s = p.streams[i];
    !s.metered && one_label(&labels_before(p, prices, i), s)
}

// One stream more is bought.
fn with_more(b: Bought, stream: u8, price: u32) -> Bought
    requires { (b.count < max_streams) × (length b.streams ≡ max_streams) × (b.price + price < 2 ^ 32) }
    ensures { held_as result ≡ with_more (held_as b) stream price }
{
    let at = b.count as usize;
    let mut streams = b.streams;
    streams[at] = stream;
    Bought {
        count: b.count + 1,
        streams,
        price: b.price + price,
    }
}

// All streams that are bought, and what they cost.
pub fn choose(p: Plant, prices: [u32; MAX_STREAMS]) -> Bought
    requires { Accepted p × ((k : ℕ) → get_or prices k 0 ≤ max_price) }
    ensures { held_as result ≡ bought_of (λ k. get_or prices k 0) (to_buy (plant_of p) (λ k. get_or prices k 0)) }
{
    let n = p.count as usize;
    let mut b = nothing();
    for i in 0..n {
        if is_bought(p, prices, i) {
            b = with_more(b, i as u8 + 1, prices[i]);
        }
    }
    b
}
