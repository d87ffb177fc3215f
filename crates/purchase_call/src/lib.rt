// Meters to buy: the prices that a call is handed, the call, and what it hands over in a lent slice.
#![tactic(auto)]

use plant_def::Plant;
use plant_def::limits::MAX_STREAMS;
use plant_def::refusal::Refusal;
use purchase_def::MAX_PRICE;

pub mod lent;

ghost use Rattle.std.specs.Prelude.{◌≡◌, ◌||◌, ◌+◌, ◌<◌, eqb, ltb, get_or, replicate};
ghost use Rattle.num_bytes.specs.Choice.{pick};
ghost use Rattle.plant_def.specs.Limits.{max_streams};
ghost use Rattle.plant_def.specs.Within.{Accepted};
ghost use Rattle.plant_def.specs.Says.{plant_of};
ghost use Rattle.plant_def.specs.Refused.{fault_in};
ghost use Rattle.purchase_def.specs.Purchases.{max_price, unmetered_to, some_unfair, prices_fault, price_in};
ghost use Rattle.num_bytes.specs.Written.{Written};
ghost use Rattle.purchase_def.specs.Says.{BuySays};
ghost use Rattle.purchase_def.specs.Views.{bought_as};

use purchase_choose::choose;
use purchase_def::Bought;

// Whether a price is 0 or over its limit.
fn unfair(c: u32) -> bool
    ensures { result ≡ (eqb c 0 || ltb max_price c) }
{
    c == 0 || MAX_PRICE < c
}

// Whether a price is unfair.
fn some_unfair(prices: &[u32]) -> bool
    ensures { result ≡ some_unfair prices.now }
{
    prices.iter().any(|c| unfair(*c))
}

// One more, where a stream is unmetered.
pub fn more(k: usize, metered: bool) -> usize
    requires { k < max_streams }
    ensures { result ≡ pick metered 0 1 + k }
{
    k + usize::from(!metered)
}

// How many streams are unmetered.
fn unmetered_in(p: Plant) -> usize
    requires { Accepted p }
    ensures { result ≡ unmetered_to (plant_of p).streams p.count }
{
    p.streams[..p.count as usize]
        .iter()
        .filter(|s| !s.metered)
        .count()
}

// The prices are refused if they are not one for each unmetered stream, or one is 0 or over its limit.
pub fn check_prices(p: Plant, prices: &[u32]) -> Result<(), Refusal>
    requires { Accepted p }
    ensures { fault_in result ≡ prices_fault (plant_of p) prices.now }
{
    if prices.len() != unmetered_in(p) {
        return Err(Refusal::Prices);
    }
    if some_unfair(prices) {
        return Err(Refusal::Prices);
    }
    Ok(())
}

// A price in the list, 0 past its end.
fn price_at(prices: &[u32], k: usize) -> u32
    ensures { result ≡ get_or prices.now k 0 }
{
    prices.get(k).copied().unwrap_or(0)
}

// The price of each stream by its number.
pub fn by_stream(p: Plant, prices: &[u32]) -> [u32; MAX_STREAMS]
    requires { Accepted p }
    ensures { Written 0 max_streams (λ k x. price_in (plant_of p).streams prices.now k) (replicate max_streams 0) result p.count }
{
    let n = p.count as usize;
    let mut each = [0u32; MAX_STREAMS];
    let mut k: usize = 0;
    for i in 0..n {
        each[i] = price_at(prices, k);
        k = more(k, p.streams[i].metered);
    }
    each
}

// The cheapest set of unmetered streams to meter so that nothing is withheld; prices are one for each unmetered stream, in
// stream order.
#[tactic(auto, using(crate::proofs::Answering::file_refused))]
pub fn meters_to_buy(file: &[u8], prices: &[u32]) -> Result<Bought, Refusal>
    ensures { BuySays file.now prices.now (bought_as result) }
{
    let plant = plant_read::read_plant(file)?;
    check_prices(plant, prices)?;
    let each = by_stream(plant, prices);
    Ok(choose(plant, each))
}
