// Steam charges: the call, and the same in two lent slices.
#![tactic(auto)]

ghost use Rattle.std.specs.Prelude.{◌≡◌, pos, ◌≤◌};
ghost use Rattle.plant_def.specs.Limits.{max_streams};
ghost use Rattle.num_lent.specs.Made.{Made};
ghost use Rattle.charge_def.specs.Says.{no_charges, ChargesSays};
ghost use Rattle.charge_def.specs.Views.{charges_as};
ghost use Rattle.charge_call.specs.Lent.{ChargesFound};

use charge_bill::bill_outcome;
use charge_def::Charges;
use num_lent::{put_bytes, put_signed};
use plant_def::limits::MAX_STREAMS;
use plant_def::refusal::Refusal;
use sheet_call::balance_of;

// What each stream to the outside is charged for one hour by the sheet of a plant, in cents, and the bill; rates are one for each of
// them, in stream order, in ten-thousandths of a cent per kg. No sheet number is drawn, and no verdict is looked at.
#[tactic(auto, using(crate::proofs::Reading::file_refused))]
pub fn charges_of(file: &[u8], rates: &[u16]) -> Result<Charges, Refusal>
    ensures { ChargesSays file.now rates.now (charges_as result) }
{
    let plant = plant_read::read_plant(file)?;
    let outcome = balance_of(plant);
    bill_outcome(plant, outcome, rates)
}

// What is handed over beside the slices: the number, how many streams are charged, and the bill.
// Stays a number: what the exported call hands to C.
#[derive(Clone, Copy)]
pub struct Handed {
    pub number: u8,
    pub count: usize,
    pub bill: i64,
}

// A refusal hands over its number alone.
fn refused(number: u8) -> Handed
    ensures { result ≡ record { number = number; count = 0; bill = pos 0 } }
{
    Handed {
        number,
        count: 0,
        bill: 0,
    }
}

// The call, where slices with room for so many numbers and so many charges hold as many as there may be.
fn charges_lent(
    file: &[u8],
    rates: &[u16],
    numbers: usize,
    cents: usize,
) -> Result<Charges, Refusal>
    ensures { Made ((max_streams ≤ numbers) × (max_streams ≤ cents)) no_charges (ChargesSays file.now rates.now) (charges_as result) }
{
    if numbers < MAX_STREAMS {
        return Err(Refusal::SliceTooShort);
    }
    if cents < MAX_STREAMS {
        return Err(Refusal::SliceTooShort);
    }
    charges_of(file, rates)
}

// The call with lent slices: the numbers of the charged streams and their cents at the front, the rest as it was; or a refusal, and
// the slices as they were.
pub fn charges_into(file: &[u8], rates: &[u16], numbers: &mut [u8], cents: &mut [i64]) -> Handed
    ensures { ChargesFound file.now rates.now numbers.old cents.old
        (result.number, result.count, result.bill, numbers.new, cents.new) }
{
    let charges = match charges_lent(file, rates, numbers.len(), cents.len()) {
        Ok(charges) => charges,
        Err(refusal) => return refused(refusal.number()),
    };
    let count = charges.count as usize;
    put_bytes(count, charges.streams, numbers);
    put_signed(count, charges.cents, cents);
    Handed {
        number: 0,
        count,
        bill: charges.bill,
    }
}
