// Meters worth a visit, as text.
#![tactic(auto)]

ghost use Rattle.std.specs.Prelude.{◌≡◌, ◌+◌, ◌≤◌, length};
ghost use Rattle.num_bytes.specs.Inner.{Put};
ghost use Rattle.num_text.specs.Adding.{Added};
ghost use Rattle.plant_def.specs.Limits.{max_streams};
ghost use Rattle.listing_lines.specs.Room.{Counts};
ghost use Rattle.num_text.specs.Numerals.{pair_line};
ghost use Rattle.visit_text.specs.Text.{lines_for};
ghost use Rattle.visit_text.specs.Says.{least_text, TextSays};

use listing_lines::put_refusal;
use num_text::{put_byte, put_decimal, put_field};
use plant_def::limits::MAX_STREAMS;
use visit_call::visits_of;

// The longest line.
const LINE_SIZE: usize = 25;

// The least slice that is taken: as many lines as there may be.
pub const LEAST_TEXT: usize = MAX_STREAMS * LINE_SIZE;

// The line of a stream: number, cost.
// Stays apart from `survey_answers::put_line`: the edit `lines_run_together` of each changes its own line's end.
fn put_line(stream: u8, cost: u64, at: usize, out: &mut [u8]) -> usize
    requires { at + length (pair_line stream cost) ≤ length out.old }
    ensures { Added (pair_line stream cost) at out.old out.new result }
{
    let a = put_field(stream as u64, at, out);
    let b = put_decimal(cost, a, out);
    put_byte(b'\n', b, out)
}

// The lines of the streams, each with its cost, and how long they are.
fn put_lines(streams: &[u8], costs: &[u64], out: &mut [u8]) -> usize
    requires { (length streams.now ≤ max_streams) × (length costs.now ≡ length streams.now) × (least_text ≤ length out.old) }
    ensures { Put (lines_for streams.now costs.now) out.old out.new result }
{
    let mut at: usize = 0;
    for (k, stream) in streams.iter().enumerate() {
        at = put_line(*stream, costs[k], at, out);
    }
    at
}

// The list of a plant file, a line for each stream, or the text of its refusal, and how long it is. Nothing where the slice is too
// short.
pub fn list_visits(file: &[u8], text: &mut [u8]) -> usize
    ensures text_says { TextSays file.now text.old text.new result }
    ensures counts { Counts result text.new }
{
    if text.len() < LEAST_TEXT {
        return 0;
    }
    let visits = match visits_of(file) {
        Ok(visits) => visits,
        Err(refusal) => return put_refusal(refusal.number(), text),
    };
    let count = visits.count as usize;
    put_lines(&visits.streams[..count], &visits.costs[..count], text)
}
