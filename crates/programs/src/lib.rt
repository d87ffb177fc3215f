// What the programs share: what they are fed, what they answer, and what they say where either fails.
#![tactic(auto)]

ghost use Rattle.std.specs.Prelude.{◌≡◌, length};
ghost use Rattle.io.specs.Counts.{IsPrefixLen};
ghost use Rattle.programs.specs.Reads.{ReadOut};
ghost use Rattle.programs.specs.Fed.{FedSays};

use plant_def::limits::LONGEST_FILE;
use std::env::{Env, FillError};
use std::io::{Print, Read};

// One byte more than the longest plant file: a longer file is refused as one that has bytes after its end.
const MOST_FED: usize = LONGEST_FILE + 1;

// How many bytes were read, and what the last read answered.
#[derive(Clone, Copy)]
pub struct Input {
    pub size: usize,
    pub last: isize,
}

// What a program is fed: the first so many bytes of an array, what the last read answered, how many words the program was started with, its
// own name among them, and whether it is a file to work on.
#[derive(Clone, Copy)]
pub struct Fed {
    pub file: [u8; MOST_FED],
    pub size: usize,
    pub last: isize,
    pub words: usize,
    pub taken: bool,
}

// One read: how many bytes it gave, or -1 where it failed.
fn read_some(reader: &mut impl Read, part: &mut [u8]) -> isize {
    match reader.read(part) {
        Ok(more) => more as isize,
        Err(_) => -1,
    }
}

// Standard input to its end, or as much of it as the slice holds.
pub fn read_input(rt: &impl std::io::Input, file: &mut [u8]) -> Input
    ensures prefix_len { IsPrefixLen result.size file.new }
    ensures file_len_unchanged { length file.new ≡ length file.old }
    ensures read_out { ReadOut file.new result.size result.last }
{
    let mut reader = rt.reader();
    let mut size: usize = 0;
    let mut last: isize = 0;
    // Stays a `while`: only a read tells where the next one begins.
    while size < file.len() {
        let got = read_some(&mut reader, &mut file[size..]);
        let more = io::count(got, &file[size..]);
        last = got;
        if more == 0 {
            return Input { size, last };
        }
        size += more;
    }
    Input { size, last }
}

// How many words the program was started with, its own name among them.
pub fn word_count(rt: &impl Env) -> usize {
    let mut start = [0u8; 1];
    for count in 0..usize::MAX {
        if let Err(FillError::NotPresent) = rt.arg(count, &mut start) {
            return count;
        }
    }
    usize::MAX
}

// Says in one line, on standard error, what is wrong.
fn complain(errors: &impl Print, name: &[u8], what: &[u8]) {
    let _ = errors.write_all(name);
    let _ = errors.write_all(what);
}

// The plant file that a program is fed, from standard input. It takes no argument. Where it is given one, or a read fails, it says so on
// `errors`, which is standard error.
pub fn plant_file(rt: &(impl Env + std::io::Input), errors: &impl Print, name: &[u8]) -> Fed
    ensures fed_says { FedSays result.file result.size result.last result.words result.taken }
    ensures prefix_len { IsPrefixLen result.size result.file }
{
    let mut file = [0u8; MOST_FED];
    let words = word_count(rt);
    if 1 < words {
        complain(
            errors,
            name,
            b": a plant file is read from standard input, and no argument is taken\n",
        );
        return Fed {
            file,
            size: 0,
            last: 0,
            words,
            taken: false,
        };
    }
    let input = read_input(rt, &mut file);
    let failed = input.last < 0;
    if failed {
        complain(errors, name, b": standard input cannot be read\n");
    }
    Fed {
        file,
        size: input.size,
        last: input.last,
        words,
        taken: !failed,
    }
}

// A text to standard output. Where that fails, it says so on `errors`. (What is written where, no contract can say: that is tested.)
pub fn put_text(rt: &impl Print, errors: &impl Print, name: &[u8], text: &[u8]) {
    if rt.write_all(text).is_err() {
        complain(errors, name, b": standard output cannot be written\n");
    }
}
