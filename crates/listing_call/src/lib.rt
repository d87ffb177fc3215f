// The listing of a plant file, as text.
#![tactic(auto)]

ghost use Rattle.listing_lines.specs.Room.{Counts};
ghost use Rattle.listing_call.specs.Says.{ListSays};

use listing_lines::{put_listing, put_refusal};
use plant_def::limits::MAX_STREAMS;
use sheet_call::balance_of;

// The longest line of a stream, and that of the total.
const LINE_SIZE: usize = 26;

const TOTAL_SIZE: usize = 48;

// The least slice that is taken: as many lines as there may be, and the total's.
pub const LEAST_TEXT: usize = MAX_STREAMS * LINE_SIZE + TOTAL_SIZE;

// The listing of a plant file's sheet 1, or the text of its refusal, and how long it is. Nothing where the slice is too short.
pub fn list_plant(file: &[u8], text: &mut [u8]) -> usize
    ensures list_says { ListSays file.now text.old text.new result }
    ensures counts { Counts result text.new }
{
    if text.len() < LEAST_TEXT {
        return 0;
    }
    let plant = match plant_read::read_plant(file) {
        Ok(plant) => plant,
        Err(e) => return put_refusal(e.number(), text),
    };
    let outcome = balance_of(plant);
    if !outcome.found {
        return put_refusal(19, text);
    }
    put_listing(plant.count as usize, 1, outcome.balance, text)
}
