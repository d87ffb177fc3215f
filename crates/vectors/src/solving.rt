// The solver.
ghost use Rattle.std.specs.Prelude.{◌≡◌, ◌≤◌, length};

use case_calls::marking::tested;
use case_calls::solved::put_flows;
use case_files::cases::{NO_CASE, told};
use plant_def::limits::MAX_STREAMS;
use solve_settle::no_hint;

// The solver on a plant file, its flows where they are asked for.
fn solve_file(asked: &[u8], file: &[u8], out: &mut [u8]) -> u64
    requires { (96 ≤ length asked.now) × (length out.old ≡ 768) }
{
    let p = match plant_read::read_plant(file) {
        Ok(p) => p,
        Err(e) => return told(e.number(), 0, 0),
    };
    let solved = solve_call::solve_from(p, no_hint());
    if !solved.found {
        let marked = solved.marked;
        return tested(told(19, 0, 0), 19, file, marked);
    }
    let flows = solved.flows;
    put_flows(flows, asked, out);
    0
}

// The solver without a hint: handed in a byte for each of 96 streams, 0 where its flow is not compared, then the plant file; the
// slice, of 768 bytes, gets the flows in two's complement, 8 bytes each, 0 where not compared; no count, no number. Where no flow
// is in range, 19 is returned and the slice left alone.
pub fn unhinted(given: &[u8], out: &mut [u8]) -> u64 {
    if given.len() < MAX_STREAMS {
        return NO_CASE;
    }
    if out.len() != 768 {
        return NO_CASE;
    }
    solve_file(given, &given[MAX_STREAMS..], out)
}
