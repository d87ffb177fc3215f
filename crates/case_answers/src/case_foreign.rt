// The check of a sheet and numbers of the places, as cases try them.
ghost use Rattle.std.specs.Prelude.{◌+◌, ◌*◌, ◌≤◌, length};

use case_files::cases::{NO_CASE, told};
use foreign_call::check_sheet;
use foreign_numbers::numbers_lent;

// A case hands in at most so many numbers, and lends a slice for at most so many.
const MOST_NUMBERS: usize = 40;

// What a lent slice holds before the call.
const FILLING: i64 = 7_777_777;

fn numbers_in(count: usize, given: &[u8]) -> [i64; MOST_NUMBERS]
    requires { (count ≤ 40) × (8 * count ≤ length given.now) }
{
    let mut found = [0i64; MOST_NUMBERS];
    for k in 0..count {
        found[k] = num_bytes::get_i64(&given[8 * k..]);
    }
    found
}

// So many numbers, a sheet of so many bytes, then the plant file.
fn check_at(count: usize, size: usize, given: &[u8]) -> u64
    requires { (count ≤ 40) × (8 * count + size ≤ length given.now) }
{
    let found = numbers_in(count, given);
    let rest = &given[8 * count..];
    told(
        check_sheet(&rest[size..], &rest[0..size], &found[0..count]),
        0,
        0,
    )
}

// Whether the first so many numbers of a slice pass: a sheet of so many bytes, then the plant file.
fn passed(count: usize, slice: [i64; MOST_NUMBERS], size: usize, given: &[u8]) -> bool
    requires { (count ≤ 40) × (size ≤ length given.now) }
{
    check_sheet(&given[size..], &given[0..size], &slice[0..count]) == 0
}

fn numbers_at(room: usize, size: usize, given: &[u8]) -> u64
    requires { (room ≤ 40) × (size ≤ length given.now) }
{
    let mut slice = [FILLING; MOST_NUMBERS];
    let lent = numbers_lent(&given[size..], &mut slice[0..room]);
    let count = lent.count;
    if MOST_NUMBERS < count || !slice[count..].iter().all(|z| *z == FILLING) {
        return NO_CASE;
    }
    if lent.number == 0 && !passed(count, slice, size, given) {
        return NO_CASE;
    }
    told(lent.number, count, 0)
}

// The check: handed in how many numbers (2), how many bytes the sheet has (2), the numbers (8 each), the sheet, then the plant file.
fn check(count: usize, size: usize, rest: &[u8]) -> u64
    requires { (count ≤ 40) × (size ≤ 65535) }
{
    if rest.len() < 8 * count + size {
        return NO_CASE;
    }
    check_at(count, size, rest)
}

// Numbers of the places: handed in for how many a slice is lent (2), how many bytes the sheet has (2), the sheet, then the plant
// file; the count is how many numbers.
fn place_numbers(room: usize, size: usize, rest: &[u8]) -> u64
    requires { room ≤ 40 }
{
    if rest.len() < size {
        return NO_CASE;
    }
    numbers_at(room, size, rest)
}

// The call of this kind.
pub fn call(kind: u64, given: &[u8]) -> u64 {
    if given.len() < 4 {
        return NO_CASE;
    }
    let count = num_bytes::get_u16(given) as usize;
    if MOST_NUMBERS < count {
        return NO_CASE;
    }
    let size = num_bytes::get_u16(&given[2..]) as usize;
    match kind {
        18 => check(count, size, &given[4..]),
        19 => place_numbers(count, size, &given[4..]),
        _ => NO_CASE,
    }
}
