// The sheet call.
ghost use Rattle.std.specs.Prelude.{◌≤◌, length};

use case_calls::marking::tested;
use case_files::cases::{NO_CASE, told};
use num_bytes::{get_u32, put_u32};
use sheet_def::kinds::OFFICES;

// The bytes of the eight last numbers, and these behind the office.
const LASTS: usize = 32;

const FRONT: usize = 1 + LASTS;

// Whether another office than 0 has a last number.
fn others(lasts: [u32; OFFICES]) -> bool {
    lasts[1..].iter().any(|last| *last != 0)
}

// The sheet call of office 0: handed in its last sheet number, the others' being 0, and the plant file. Where another office's number
// is not as it was, the answer stands in no case.
pub fn sheet(number: u32, given: &[u8], out: &mut [u8]) -> u64 {
    let drawn = sheet_call::balance_plant(given, 0, sheet_history::offices_from(number), out);
    if others(drawn.lasts) {
        return NO_CASE;
    }
    let answer = told(drawn.number, drawn.written, drawn.lasts[0]);
    tested(answer, drawn.number, given, drawn.marked)
}

fn lasts_in(given: &[u8]) -> [u32; OFFICES]
    requires { 32 ≤ length given.now }
{
    let mut lasts = [0u32; OFFICES];
    for (k, last) in lasts.iter_mut().enumerate() {
        *last = get_u32(&given[4 * k..]);
    }
    lasts
}

fn put_lasts(lasts: [u32; OFFICES], out: &mut [u8])
    requires { 32 ≤ length out.old }
{
    for (k, last) in lasts.iter().enumerate() {
        put_u32(*last, &mut out[4 * k..]);
    }
}

// The sheet call of any office: handed in the office, the eight last sheet numbers (4 each) and the plant file; the last numbers are
// handed back in the first 32 bytes of the slice, and the part behind them is lent for the sheet.
pub fn office_sheet(given: &[u8], out: &mut [u8]) -> u64 {
    if given.len() < FRONT || out.len() < LASTS {
        return NO_CASE;
    }
    let lasts = lasts_in(&given[1..]);
    let drawn = sheet_call::balance_plant(&given[FRONT..], given[0], lasts, &mut out[LASTS..]);
    put_lasts(drawn.lasts, out);
    let answer = told(drawn.number, drawn.written, 0);
    tested(answer, drawn.number, &given[FRONT..], drawn.marked)
}
