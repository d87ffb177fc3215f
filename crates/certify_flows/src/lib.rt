// All streams of a plant of wide numbers: their first fault, their flows and bounds, the net of each unit.
#![tactic(auto)]

ghost use Rattle.std.specs.Prelude.{◌≡◌, true, nat_abs, ℕ, ◌≤◌, ◌<◌, ◌^◌, length};
ghost use Rattle.plant_def.specs.Limits.{max_streams};
ghost use Rattle.plant_def.specs.Refused.{fault_in};
ghost use Rattle.flow_def.specs.Flows.{amount_at};
ghost use Rattle.flow_def.specs.Certificate.{climb, listed_potential};
ghost use Rattle.certify_def.specs.Number.{max_wide_flow, max_wide_number, wide_faults};
ghost use Rattle.certify_def.specs.Test.{plainly, wide_at, all_small, Ready, flows_fit, net_to, nets_fit};

use certify_def::WideStream;
use certify_stream::{brought_to, check_stream, flow_fits, is_small};
use plant_def::limits::MAX_STREAMS;
use plant_def::refusal::Refusal;

// The first fault of the first so many streams.
pub fn check_streams(
    units: u8,
    count: usize,
    streams: [WideStream; MAX_STREAMS],
) -> Result<(), Refusal>
    requires { count ≤ max_streams }
    ensures { fault_in result ≡ wide_faults units (wide_at streams) count }
{
    for s in &streams[..count] {
        check_stream(units, *s)?;
    }
    Ok(())
}

// Whether the first so many numbers are within a limit.
pub fn all_small(count: usize, zs: &[i64], limit: u64) -> bool
    requires { count ≤ length zs.now }
    ensures { result ≡ all_small count zs.now limit }
{
    for z in &zs[..count] {
        if !is_small(*z, limit) {
            return false;
        }
    }
    true
}

// The difference of the numbers at a stream's ends.
fn difference_at(numbers: &[i64], s: WideStream) -> i64
    requires from_in_bounds { (s.from < length numbers.now) × (s.to < length numbers.now) }
    requires from_bound { (nat_abs (listed_potential numbers.now s.from) ≤ max_wide_number) × (nat_abs (listed_potential numbers.now s.to) ≤ max_wide_number) }
    ensures { (result ≡ climb (listed_potential numbers.now) (plainly s)) × (nat_abs result ≤ 2 ^ 62) }
{
    let u = s.from as usize;
    let v = s.to as usize;
    numbers[v] - numbers[u]
}

// Each flow is in range, and the numbers at the stream's ends are within its bounds.
pub fn flows_fit(
    count: usize,
    streams: [WideStream; MAX_STREAMS],
    flow: &[i64],
    numbers: &[i64],
) -> bool
    requires { (n : ℕ) × Ready n count (wide_at streams) flow.now numbers.now }
    ensures { result ≡ flows_fit (wide_at streams) (amount_at flow.now) numbers.now count }
{
    for i in 0..count {
        let s = streams[i];
        let c = difference_at(numbers, s);
        if !flow_fits(s, flow[i], c) {
            return false;
        }
    }
    true
}

// The net of place u by all of these streams.
fn net_of(u: u8, streams: &[WideStream], flow: &[i64]) -> i64
    requires { (length streams.now ≤ max_streams) × (length streams.now ≤ length flow.now)
        × (all_small (length streams.now) flow.now max_wide_flow ≡ true) }
    ensures { result ≡ net_to (wide_at streams.now) (amount_at flow.now) u (length streams.now) }
{
    let mut net: i64 = 0;
    for (i, s) in streams.iter().enumerate() {
        let b = brought_to(u, *s, flow[i]);
        net += b;
    }
    net
}

// The nets of all units are 0.
pub fn nets_fit(units: u8, count: usize, streams: [WideStream; MAX_STREAMS], flow: &[i64]) -> bool
    requires { (count ≤ max_streams) × (count ≤ length flow.now) × (all_small count flow.now max_wide_flow ≡ true) }
    ensures { result ≡ nets_fit (wide_at streams) (amount_at flow.now) count units }
{
    for u in 0..units {
        if net_of(u + 1, &streams[..count], flow) != 0 {
            return false;
        }
    }
    true
}
