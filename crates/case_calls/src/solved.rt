// The flows of the solver, where they are asked for.
ghost use Rattle.std.specs.Prelude.{◌≡◌, ◌≤◌, length};

use plant_def::limits::MAX_STREAMS;
use solve_def::sizes::FLOW_SHIFT;

// The flow that an amount stands for, in two's complement, where it is asked for.
fn flow_asked(asked: u8, amount: u64) -> u64 {
    if asked == 0 {
        return 0;
    }
    amount.wrapping_sub(FLOW_SHIFT)
}

// The flows in two's complement, 8 bytes each, 0 where not asked for.
pub fn put_flows(flows: [u64; MAX_STREAMS], asked: &[u8], out: &mut [u8])
    requires { (96 ≤ length asked.now) × (length out.old ≡ 768) }
{
    for (i, amount) in flows.iter().enumerate() {
        num_bytes::put_u64(flow_asked(asked[i], *amount), &mut out[8 * i..]);
    }
}
