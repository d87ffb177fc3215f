// The survey of a plant file in a lent slice, and as text.
#![tactic(auto)]

ghost use Rattle.std.specs.Prelude.{◌≤◌, ◌+◌, length};
ghost use Rattle.survey_def.specs.Says.{survey_size};
ghost use Rattle.survey_answers.specs.Lent.{SurveyFound};
ghost use Rattle.num_bytes.specs.Inner.{Put};
ghost use Rattle.num_text.specs.Adding.{Added};
ghost use Rattle.listing_lines.specs.Room.{Counts};
ghost use Rattle.num_text.specs.Numerals.{pair_line};
ghost use Rattle.survey_answers.specs.Text.{lines_from};
ghost use Rattle.survey_answers.specs.Says.{least_text, TextSays};

use listing_lines::put_refusal;
use num_lent::put_front;
use num_text::{put_byte, put_decimal, put_field};
use survey_count::layouts_of;
use survey_def::SURVEY_SIZE;

// What is handed over beside the slice: the number, and how many streams there are.
// Stays a number: what the exported call hands to C.
#[derive(Clone, Copy)]
pub struct Lent {
    pub number: u8,
    pub count: usize,
}

// The survey: a count for each size at the front of the slice, the rest of it as it was; or a refusal, and the slice as it was.
// A slice that does not hold as many as there may be is refused as 1, before the file is read.
pub fn layouts_lent(file: &[u8], counts: &mut [u16]) -> Lent
    ensures { SurveyFound file.now counts.old (result.number, result.count, counts.new) }
{
    if counts.len() < SURVEY_SIZE {
        return Lent {
            number: 1,
            count: 0,
        };
    }
    match layouts_of(file) {
        Ok(layouts) => {
            let count = layouts.count as usize;
            put_front(&layouts.counts[..count + 1], counts);
            Lent { number: 0, count }
        }
        Err(e) => Lent {
            number: e.number(),
            count: 0,
        },
    }
}

// The longest line.
const LINE_SIZE: usize = 9;

// The least slice that is taken: as many lines as there may be.
pub const LEAST_TEXT: usize = SURVEY_SIZE * LINE_SIZE;

// The line of a size: k, count.
// Stays apart from `visit_text::put_line`: the edit `lines_run_together` of each changes its own line's end.
fn put_line(k: usize, count: u16, at: usize, out: &mut [u8]) -> usize
    requires { at + length (pair_line k count) ≤ length out.old }
    ensures { Added (pair_line k count) at out.old out.new result }
{
    let a = put_field(k as u64, at, out);
    let b = put_decimal(count as u64, a, out);
    put_byte(b'\n', b, out)
}

// The lines of the sizes, a count for each, and how long they are.
fn put_lines(counts: &[u16], out: &mut [u8]) -> usize
    requires { (length counts.now ≤ survey_size) × (least_text ≤ length out.old) }
    ensures { Put (lines_from 0 counts.now) out.old out.new result }
{
    let mut at: usize = 0;
    for (k, count) in counts.iter().enumerate() {
        at = put_line(k, *count, at, out);
    }
    at
}

// The survey of a plant file, a line for each size, or the text of its refusal, and how long it is. Nothing where the slice is
// too short.
pub fn list_layouts(file: &[u8], text: &mut [u8]) -> usize
    ensures text_says { TextSays file.now text.old text.new result }
    ensures counts { Counts result text.new }
{
    if text.len() < LEAST_TEXT {
        return 0;
    }
    match layouts_of(file) {
        Ok(layouts) => put_lines(&layouts.counts[..layouts.count as usize + 1], text),
        Err(e) => put_refusal(e.number(), text),
    }
}
