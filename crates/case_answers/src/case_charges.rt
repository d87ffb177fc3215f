// Steam charges, as cases try them.
//
// A charge is 9 bytes: the number of its stream, its cents (8, two's complement).
ghost use Rattle.std.specs.Prelude.{◌≡◌, ◌*◌, ◌≤◌, length};

use case_files::cases::{NO_CASE, told};
use charge_call::charges_of;
use charge_def::Charges;
use plant_def::limits::MAX_STREAMS;

// A case hands in no more rates than this.
const MOST_RATES: usize = 128;

fn rates_in(count: usize, given: &[u8]) -> [u16; MOST_RATES]
    requires { (count ≤ 128) × (2 * count ≤ length given.now) }
{
    let mut rates = [0u16; MOST_RATES];
    for k in 0..count {
        rates[k] = num_bytes::get_u16(&given[2 * k..]);
    }
    rates
}

fn put_charge(stream: u8, cents: i64, out: &mut [u8])
    requires { 9 ≤ length out.old }
{
    num_bytes::put_i64(cents, &mut out[1..]);
    out[0] = stream;
}

fn put_charges(streams: &[u8], cents: &[i64], out: &mut [u8])
    requires { (length streams.now ≤ 96) × (length cents.now ≡ length streams.now) × (length out.old ≡ 864) }
{
    for (k, stream) in streams.iter().enumerate() {
        put_charge(*stream, cents[k], &mut out[9 * k..]);
    }
}

// The bill, and what each stream is charged.
fn put_bill(charges: Charges, out: &mut [u8]) -> u64
    requires { length out.old ≡ 872 }
{
    let count = charges.count as usize;
    if MAX_STREAMS < count {
        return NO_CASE;
    }
    put_charges(
        &charges.streams[..count],
        &charges.cents[..count],
        &mut out[8..],
    );
    num_bytes::put_i64(charges.bill, out);
    told(0, count, 0)
}

// So many rates, then the plant file.
fn charge_at(count: usize, given: &[u8], out: &mut [u8]) -> u64
    requires { (count ≤ 128) × (2 * count ≤ length given.now) × (length out.old ≡ 872) }
{
    let rates = rates_in(count, given);
    match charges_of(&given[2 * count..], &rates[0..count]) {
        Ok(charges) => put_bill(charges, out),
        Err(refusal) => {
            num_bytes::put_i64(0, out);
            told(refusal.number(), 0, 0)
        }
    }
}

// Steam charges: handed in how many rates (2), the rates (2 each), then the plant file; the count is how many streams are charged,
// and the slice, of 872 bytes, gets the bill (8, two's complement) and a charge for each of them; no number.
pub fn charge(given: &[u8], out: &mut [u8]) -> u64 {
    if out.len() != 872 || given.len() < 2 {
        return NO_CASE;
    }
    let count = num_bytes::get_u16(given) as usize;
    let rest = &given[2..];
    if MOST_RATES < count || rest.len() < 2 * count {
        return NO_CASE;
    }
    charge_at(count, rest, out)
}
