// Calls on the cases of files, each answer compared with what a separate reference solver gave.
#![tactic(auto)]

mod calls;
mod cases;
mod drawing;
mod solving;
#[cfg(test)]
mod tests;

use case_files::cases::{open_argument, say_cases, say_differs};
use cases::try_next;
use std::io;
use std::io::Read;

// A file has no more cases than this.
const MOST_CASES: u64 = 10_000;

// Tries the cases of an open file, says which differ, and counts.
fn try_cases(rt: &impl Print, file: &mut impl Read) {
    let mut cases: u64 = 0;
    for case in 1..=MOST_CASES {
        match try_next(file) {
            None => break,
            Some(true) => (),
            Some(false) => say_differs(rt, case),
        }
        cases = case;
    }
    say_cases(rt, cases);
}

// The files of cases are the arguments. One that cannot be opened has no case.
fn main(rt: HostRuntime) {
    let count = programs::word_count(&rt);
    for i in 1..count {
        match open_argument(&rt, i) {
            Ok(mut file) => try_cases(&rt, &mut file),
            Err(_) => try_cases(&rt, &mut io::empty()),
        }
    }
}
