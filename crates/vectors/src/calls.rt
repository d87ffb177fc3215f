// The calls that cases try, each with its results as those of the sheet call: a number returned, a count and a number handed
// back, and the bytes of the slice. What each is handed and hands back stands where it is defined.
use crate::drawing::{office_sheet, sheet};
use crate::solving::unhinted;
use case_files::cases::told;
use case_files::kept::kept;
use case_files::plant_files::{reader, writer, written};
use plant_write::numbered::by_number;

// The calls that read or write a file. The translator and the moves are handed in a file.
fn file_call(kind: u64, given: &[u8], out: &mut [u8]) -> u64 {
    match kind {
        2 => reader(given, out),
        3 => writer(given, out),
        6 => kept(given, out),
        7 => written(by_number(transmitter_translate::plant_from_transmitter(given, out))),
        9 => written(by_number(ranged_call::to_ranged(given, out))),
        10 => written(by_number(ranged_call::from_ranged(given, out))),
        14..=15 => case_answers::call(kind, given, out),
        17 => case_answers::charge(given, out),
        _ => case_calls::call(kind, given, out),
    }
}

// The call of this kind.
pub fn call(kind: u64, number: u32, given: &[u8], out: &mut [u8]) -> u64 {
    match kind {
        1 => sheet(number, given, out),
        4 => unhinted(given, out),
        5 => told(0, listing_call::list_plant(given, out), 0),
        16 => office_sheet(given, out),
        18..=19 => case_answers::case_foreign::call(kind, given),
        _ => file_call(kind, given, out),
    }
}
