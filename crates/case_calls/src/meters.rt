// Meters to buy, and the survey of meter layouts.
ghost use Rattle.std.specs.Prelude.{◌≡◌, ◌*◌, ◌≤◌, length};

use case_files::cases::{NO_CASE, told};
use purchase_call::lent::buy_into;
use survey_def::SURVEY_SIZE;

// A case hands in fewer prices than this.
const MOST_PRICES: usize = 128;

fn prices_in(count: usize, given: &[u8]) -> [u32; MOST_PRICES]
    requires { (count ≤ 128) × (4 * count ≤ length given.now) }
{
    let mut prices = [0u32; MOST_PRICES];
    for k in 0..count {
        prices[k] = num_bytes::get_u32(&given[4 * k..]);
    }
    prices
}

// So many prices, then the plant file.
fn buy_at(count: usize, given: &[u8], out: &mut [u8]) -> u64
    requires { (count ≤ 128) × (4 * count ≤ length given.now) }
{
    let prices = prices_in(count, given);
    let handed = buy_into(&given[4 * count..], &prices[0..count], out);
    told(handed.number, handed.count, handed.price)
}

// Meters to buy: handed in how many prices (2), the prices (4 each), then the plant file; the count is how many streams, the number
// what they cost together, and the slice gets their numbers.
pub fn buy(given: &[u8], out: &mut [u8]) -> u64 {
    if given.len() < 2 {
        return NO_CASE;
    }
    let count = num_bytes::get_u16(given) as usize;
    let rest = &given[2..];
    if MOST_PRICES < count || rest.len() < 4 * count {
        return NO_CASE;
    }
    buy_at(count, rest, out)
}

fn put_counts(counts: [u16; SURVEY_SIZE], out: &mut [u8])
    requires { length out.old ≡ 26 }
{
    for (k, count) in counts.iter().enumerate() {
        num_bytes::put_u16(*count, &mut out[2 * k..]);
    }
}

// The survey: the count is how many streams there are, and the slice, of 26 bytes, gets the 13 counts, 2 bytes each.
pub fn survey(given: &[u8], out: &mut [u8]) -> u64 {
    if out.len() != 26 {
        return NO_CASE;
    }
    match survey_count::layouts_of(given) {
        Ok(layouts) => {
            put_counts(layouts.counts, out);
            told(0, layouts.count as usize, 0)
        }
        Err(e) => {
            put_counts([0; SURVEY_SIZE], out);
            told(e.number(), 0, 0)
        }
    }
}
