// The compression and the calls about meters, as cases try them; and what the calls of the solver are handed and tested by.
#![tactic(auto)]

mod compressed;
pub mod marking;
mod meters;
pub mod solved;

use case_files::cases::{NO_CASE, told};
use compressed::compress_up;
use meters::{buy, survey};
use survey_answers::list_layouts;

// The call of this kind.
pub fn call(kind: u64, given: &[u8], out: &mut [u8]) -> u64 {
    match kind {
        8 => compress_up(given, out),
        11 => buy(given, out),
        12 => survey(given, out),
        13 => told(0, list_layouts(given, out), 0),
        _ => NO_CASE,
    }
}
