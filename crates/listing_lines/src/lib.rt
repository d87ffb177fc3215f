// The lines of a listing: one for each stream, then that of the total.
#![tactic(auto)]

ghost use Rattle.std.specs.Prelude.{◌+◌, ◌≤◌, ◌*◌, ◌∷◌, ◌++◌, length};
ghost use Rattle.num_bytes.specs.Inner.{Put};
ghost use Rattle.num_text.specs.Numerals.{text, signed_decimal, field};
ghost use Rattle.listing_lines.specs.Listing.{entry_text, refusal_text, lines_from, word_of, total_line, listing_of};
ghost use Rattle.num_text.specs.Adding.{Added};
ghost use Rattle.listing_lines.specs.Room.{refusal_size, line_size, least_text};
ghost use Rattle.plant_def.specs.Limits.{max_streams};

use flow_def::Class;
use num_text::{put_byte, put_decimal, put_field, put_signed, put_text};
use sheet_def::{Balance, Entry};

// A class letter and a flow.
fn put_flow(letter: u8, flow: i64, at: usize, out: &mut [u8]) -> usize
    requires { at + length (letter ∷ text " " ++ signed_decimal flow) ≤ length out.old }
    ensures { Added (letter ∷ text " " ++ signed_decimal flow) at out.old out.new result }
{
    let a = put_byte(letter, at, out);
    let b = put_byte(b' ', a, out);
    put_signed(flow, b, out)
}

// A stream's class letter and its flow; a dash where it is withheld.
pub fn put_entry(class: Class, flow: i64, at: usize, out: &mut [u8]) -> usize
    requires { at + length (entry_text class flow) ≤ length out.old }
    ensures { Added (entry_text class flow) at out.old out.new result }
{
    match class {
        Class::Adjusted => put_flow(b'A', flow, at, out),
        Class::AsRead => put_flow(b'R', flow, at, out),
        Class::Given => put_flow(b'G', flow, at, out),
        Class::Withheld => put_text(b"W -", at, out),
    }
}

// The text of a refusal, and how long it is.
pub fn put_refusal(number: u8, out: &mut [u8]) -> usize
    requires { refusal_size ≤ length out.old }
    ensures { Put (refusal_text number) out.old out.new result }
{
    let a = put_text(b"refused ", 0, out);
    let b = put_decimal(number as u64, a, out);
    put_byte(b'\n', b, out)
}

// The line of a stream: number, class letter, flow.
fn put_line(number: usize, class: Class, flow: i64, at: usize, out: &mut [u8]) -> usize
    requires { at + length (field number ++ entry_text class flow ++ text "\n") ≤ length out.old }
    ensures { Added (field number ++ entry_text class flow ++ text "\n") at out.old out.new result }
{
    let a = put_field(number as u64, at, out);
    let b = put_entry(class, flow, a, out);
    put_byte(b'\n', b, out)
}

// The lines of the streams.
fn put_lines(streams: &[Entry], out: &mut [u8]) -> usize
    requires { (length streams.now ≤ max_streams) × (max_streams * line_size ≤ length out.old) }
    ensures { Added (lines_from 1 streams.now) 0 out.old out.new result × (result ≤ max_streams * line_size) }
{
    let mut at: usize = 0;
    for (i, e) in streams.iter().enumerate() {
        at = put_line(i + 1, e.class, e.flow, at, out);
    }
    at
}

// The word for a verdict.
fn put_word(verdict: u8, at: usize, out: &mut [u8]) -> usize
    requires { at + length (word_of verdict) ≤ length out.old }
    ensures { Added (word_of verdict) at out.old out.new result }
{
    match verdict {
        0 => put_text(b"pass", at, out),
        1 => put_text(b"fail", at, out),
        3 => put_text(b"close", at, out),
        _ => put_text(b"none", at, out),
    }
}

// The line of the total: sheet number, cost, degrees, verdict.
fn put_total(number: u32, cost: u64, degrees: u8, verdict: u8, at: usize, out: &mut [u8]) -> usize
    requires { at + length (total_line number cost degrees verdict) ≤ length out.old }
    ensures { Added (total_line number cost degrees verdict) at out.old out.new result }
{
    let a = put_text(b"total ", at, out);
    let b = put_field(number as u64, a, out);
    let c = put_field(cost, b, out);
    let d = put_field(degrees as u64, c, out);
    let e = put_word(verdict, d, out);
    put_byte(b'\n', e, out)
}

// The listing of sheet `number` of a balance with so many streams, and how long it is.
pub fn put_listing(count: usize, number: u32, b: Balance, out: &mut [u8]) -> usize
    requires { (count ≤ max_streams) × (least_text ≤ length out.old) }
    ensures { Put (listing_of count number b) out.old out.new result }
{
    let at = put_lines(&b.streams[..count], out);
    put_total(number, b.cost, b.degrees, b.verdict, at, out)
}
