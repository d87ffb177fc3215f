// Meters worth a visit, as cases try them.
ghost use Rattle.std.specs.Prelude.{◌≡◌, ◌≤◌, length};

use case_files::cases::{NO_CASE, told};
use plant_def::limits::MAX_STREAMS;
use visit_call::visits_of;
use visit_text::list_visits;

// What a stream of the list takes in the slice, and all of them.
const LISTED: usize = 9;

const LEAST_ROOM: usize = MAX_STREAMS * LISTED;

// A stream's number (1) and its cost (8).
fn put_visit(stream: u8, cost: u64, out: &mut [u8])
    requires { 9 ≤ length out.old }
{
    num_bytes::put_u8(stream, out);
    num_bytes::put_u64(cost, &mut out[1..]);
}

fn put_visits(streams: &[u8], costs: &[u64], out: &mut [u8])
    requires { (length streams.now ≤ 96) × (length costs.now ≡ length streams.now) × (864 ≤ length out.old) }
{
    for (k, stream) in streams.iter().enumerate() {
        put_visit(*stream, costs[k], &mut out[LISTED * k..]);
    }
}

// The call: handed in the plant file; the count is how many streams are listed, and the slice gets each with its cost.
fn visits(given: &[u8], out: &mut [u8]) -> u64 {
    if out.len() < LEAST_ROOM {
        return NO_CASE;
    }
    let found = match visits_of(given) {
        Ok(found) => found,
        Err(refusal) => return told(refusal.number(), 0, 0),
    };
    let count = found.count as usize;
    if MAX_STREAMS < count {
        return NO_CASE;
    }
    put_visits(&found.streams[..count], &found.costs[..count], out);
    told(0, count, 0)
}

// The call of this kind: the list, or its text.
pub fn call(kind: u64, given: &[u8], out: &mut [u8]) -> u64 {
    match kind {
        14 => visits(given, out),
        15 => told(0, list_visits(given, out), 0),
        _ => NO_CASE,
    }
}
