// A file of cases has one after the other, with no gap. A case, its numbers with the high byte first:
//
//     byte 0       what is called: 1 the sheet call, 2 the plant reader, 3 the plant writer, 4 the solver without a hint,
//                  5 the listing, 6 the sheet reader, 7 the translator, 8 the compression, 9 and 10 the moves,
//                  11 meters to buy, 12 the survey, 13 its text, 14 meters worth a visit, 15 their text,
//                  16 the sheet call of any office, 17 steam charges,
//                  18 the check of a sheet, 19 numbers of the places
//     byte 1       what the slice holds before the call
//     bytes 2-3    how many bytes are handed in, at most ROOM
//     bytes 4-5    how many bytes of the slice follow, at most ROOM; those past them are as before the call
//     bytes 6-7    how long the slice is, at most ROOM
//     bytes 8-11   the number handed in
//     byte 12      the number returned, and a 0 after it
//     bytes 14-15  the count handed back
//     bytes 16-19  the number handed back
//
// then the bytes handed in, then those of the slice. What they are for each call stands beside each.
ghost use Rattle.std.specs.Prelude.{◌≡◌, length};

use crate::calls::call;
use case_files::cases::{ROOM, next_u32, next_u64, read_part, same_part, size_in};
use std::io::Read;

// Bytes 0 to 7 are read as one number. The kind, what the slice holds and the first two sizes are the last part of
// that number divided by these; the third is the last part of the number itself.
const KIND: u64 = 72_057_594_037_927_936;

const FILL: u64 = 281_474_976_710_656;

const GIVEN: u64 = 4_294_967_296;

const KNOWN: u64 = 65_536;

// Makes the call, with these bytes handed in, and lends it as much of the slice as the case says.
fn answer(sizes: u64, number: u32, given: [u8; ROOM], slice: &mut [u8]) -> u64
    requires { length slice.old ≡ 2560 }
{
    let size = size_in(sizes / GIVEN);
    let room = size_in(sizes);
    call(sizes / KIND, number, &given[0..size], &mut slice[0..room])
}

// Tries the case whose bytes 0 to 7 are these, and which tells this.
fn case_right(file: &mut impl Read, sizes: u64, number: u32, told: u64) -> bool {
    let fill = (sizes / FILL % 256) as u8;
    let given = read_part(file, sizes / GIVEN, 0);
    let mut slice = [fill; ROOM];
    let right = answer(sizes, number, given, &mut slice) == told;
    let same = same_part(file, sizes / KNOWN, fill, &slice);
    right && same
}

// Tries the next case of an open file, and says whether it is right; None if the file ends.
pub fn try_next(file: &mut impl Read) -> Option<bool> {
    let sizes = next_u64(file);
    if sizes == 0 {
        return None;
    }
    let number = next_u32(file);
    let told = next_u64(file);
    Some(case_right(file, sizes, number, told))
}
