// The numbers of the streams to be metered, handed over in a lent slice.
ghost use Rattle.std.specs.Prelude.{◌≤◌};
ghost use Rattle.plant_def.specs.Limits.{max_streams};
ghost use Rattle.num_lent.specs.Made.{Made};
ghost use Rattle.purchase_def.specs.Says.{none_bought, BuySays};
ghost use Rattle.purchase_def.specs.Views.{bought_as};
ghost use Rattle.purchase_call.specs.Lent.{BuyFound};

use crate::meters_to_buy;
use num_lent::put_bytes;
use plant_def::limits::MAX_STREAMS;
use plant_def::refusal::Refusal;
use purchase_def::{Bought, Handed};

// The call, where a slice with room for so many numbers holds as many as there may be.
fn buy_lent(file: &[u8], prices: &[u32], room: usize) -> Result<Bought, Refusal>
    ensures { Made (max_streams ≤ room) none_bought (BuySays file.now prices.now) (bought_as result) }
{
    if room < MAX_STREAMS {
        return Err(Refusal::SliceTooShort);
    }
    meters_to_buy(file, prices)
}

// The call with a lent slice.
pub fn buy_into(file: &[u8], prices: &[u32], out: &mut [u8]) -> Handed
    ensures { BuyFound file.now prices.now out.old (result.number, result.count, result.price, out.new) }
{
    match buy_lent(file, prices, out.len()) {
        Ok(bought) => {
            let count = bought.count as usize;
            put_bytes(count, bought.streams, out);
            Handed {
                number: 0,
                count,
                price: bought.price,
            }
        }
        Err(e) => Handed {
            number: e.number(),
            count: 0,
            price: 0,
        },
    }
}
