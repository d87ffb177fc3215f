// The parts of a case, and what is said of cases. The form of a case stands beside the program that tries them, vectors.
ghost use Rattle.std.specs.Prelude.{◌≤◌};

use std::env::Env;
use std::fs;
use std::io::{Error, ErrorKind, Print, Read, Result};
use std::rt::Files;

pub const ROOM: usize = 2560;

// What is told for bytes that no case may hand in, and for a wrong answer that stands in no case.
pub const NO_CASE: u64 = 18_446_744_073_709_551_615;

// What a call comes to, but for the slice, as bytes 12 to 19 tell it.
pub fn told(number: u8, count: usize, back: u32) -> u64 {
    if 65_535 < count {
        return NO_CASE;
    }
    (number as u64 * 16_777_216 + count as u64) * 4_294_967_296 + back as u64
}

// The next four bytes of a file, 0 where it ends.
pub fn next_u32(file: &mut impl Read) -> u32 {
    let mut bytes = [0u8; 4];
    let _ = file.read_exact(&mut bytes);
    num_bytes::get_u32(&bytes)
}

// The next eight.
pub fn next_u64(file: &mut impl Read) -> u64 {
    let high = next_u32(file) as u64;
    high * 4_294_967_296 + next_u32(file) as u64
}

// The size that the last two of some bytes tell: 0 where it is too long.
pub fn size_in(bytes: u64) -> usize
    ensures { result ≤ 2560 }
{
    let size = (bytes % 65_536) as usize;
    if ROOM < size {
        return 0;
    }
    size
}

// Reads the part of this size, with this byte after it.
pub fn read_part(file: &mut impl Read, bytes: u64, after: u8) -> [u8; ROOM] {
    let mut part = [after; ROOM];
    let size = size_in(bytes);
    let _ = file.read_exact(&mut part[0..size]);
    part
}

// Whether the next part, with this byte after it, is the slice.
pub fn same_part(file: &mut impl Read, bytes: u64, after: u8, slice: &[u8]) -> bool {
    let known = read_part(file, bytes, after);
    check::same(slice, &known)
}

// Opens the file of cases that argument i names, and says its name.
pub fn open_argument<R: Env + Files + Print>(rt: &R, i: usize) -> Result<R::File> {
    let mut name = [0u8; 64];
    let size = rt.arg(i, &mut name).unwrap_or(0);
    let _ = rt.write_all(&name[0..size]);
    match std::str::from_utf8(&name[0..size]) {
        Ok(path) => fs::open(rt, path),
        Err(_) => Err(Error::from(ErrorKind::InvalidInput)),
    }
}

fn say(rt: &impl Print, text: &str, count: u64) {
    let _ = rt.print(text);
    let _ = rt.print(count);
}

// The case of this number is not as it must be.
pub fn say_differs(rt: &impl Print, case: u64) {
    say(rt, ", differs: case ", case);
}

// A file had so many cases.
pub fn say_cases(rt: &impl Print, cases: u64) {
    say(rt, ", cases: ", cases);
    let _ = rt.print("\n");
}
