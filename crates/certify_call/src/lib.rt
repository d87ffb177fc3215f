// The check of a flow found elsewhere by its parts: faults of the call, streams gathered from slices, the faults and rules of the streams.
#![tactic(auto)]

ghost use Rattle.std.specs.Prelude.{◌≡◌, not, ◌≤◌, ◌<◌, length};
ghost use Rattle.num_bytes.specs.Choice.{refuse_if, first_of};
ghost use Rattle.plant_def.specs.Limits.{max_units, max_streams};
ghost use Rattle.plant_def.specs.Refused.{fault_in};
ghost use Rattle.plant_parts.specs.Parts.{least};
ghost use Rattle.plant_parts.specs.Inner.{meter_at, range_at};
ghost use Rattle.certify_def.specs.Number.{wide_faults};
ghost use Rattle.certify_def.specs.Test.{plainly, wide_at, call_number, Gathered, AllWithin, rules_hold};

use certify_def::{MAX_WIDE_FLOW, MAX_WIDE_NUMBER, WideStream};
use certify_flows::{all_small, check_streams, flows_fit, nets_fit};
use plant_check::check_units;
use plant_def::limits::MAX_STREAMS;
use plant_def::refusal::Refusal;

// A slice too short, then the fault of the units, then of the count.
pub fn check_call(
    units: u8,
    count: usize,
    reach: usize,
    flows: usize,
    numbers: usize,
) -> Result<(), Refusal>
    ensures { fault_in result ≡ call_number units count (least reach flows) numbers }
{
    if reach.min(flows) < count || numbers <= units as usize {
        return Err(Refusal::SliceTooShort);
    }
    check_units(units)?;
    if MAX_STREAMS < count {
        return Err(Refusal::TooManyStreams);
    }
    Ok(())
}

// The stream at a place that these slices reach, without its range.
fn meter_at(
    from: &[u8],
    to: &[u8],
    metered: &[u8],
    weight: &[u64],
    reading: &[i64],
    k: usize,
) -> WideStream
    requires { (k < length from.now) × (k < length to.now) × (k < length metered.now) × (k < length weight.now) × (k < length reading.now) }
    ensures { plainly result ≡ meter_at from.now to.now metered.now weight.now reading.now k }
{
    WideStream {
        from: from[k],
        to: to[k],
        metered: metered[k] != 0,
        ranged: false,
        weight: weight[k],
        reading: reading[k],
        low: 0,
        high: 0,
    }
}

// The first so many streams, without their ranges.
pub fn meters_gathered(
    count: usize,
    from: &[u8],
    to: &[u8],
    metered: &[u8],
    weight: &[u64],
    reading: &[i64],
) -> [WideStream; MAX_STREAMS]
    requires { (count ≤ max_streams) × (count ≤ length from.now) × (count ≤ length to.now) × (count ≤ length metered.now)
        × (count ≤ length weight.now) × (count ≤ length reading.now) }
    ensures { Gathered result (meter_at from.now to.now metered.now weight.now reading.now) count }
{
    let mut streams = [WideStream::default(); MAX_STREAMS];
    for k in 0..count {
        streams[k] = meter_at(from, to, metered, weight, reading, k);
    }
    streams
}

// A stream with the range at a place that these slices reach.
fn range_at(ranged: &[u8], low: &[i64], high: &[i64], s: WideStream, k: usize) -> WideStream
    requires { (k < length ranged.now) × (k < length low.now) × (k < length high.now) }
    ensures { plainly result ≡ range_at ranged.now low.now high.now (plainly s) k }
{
    WideStream {
        ranged: ranged[k] != 0,
        low: low[k],
        high: high[k],
        ..s
    }
}

// The first so many streams, with their ranges.
pub fn ranges_gathered(
    count: usize,
    meters: [WideStream; MAX_STREAMS],
    ranged: &[u8],
    low: &[i64],
    high: &[i64],
) -> [WideStream; MAX_STREAMS]
    requires { (count ≤ max_streams) × (count ≤ length ranged.now) × (count ≤ length low.now) × (count ≤ length high.now) }
    ensures { Gathered result (λ k. range_at ranged.now low.now high.now (wide_at meters k) k) count }
{
    let mut streams = [WideStream::default(); MAX_STREAMS];
    for k in 0..count {
        streams[k] = range_at(ranged, low, high, meters[k], k);
    }
    streams
}

// No rule is broken.
fn rules_hold(
    units: u8,
    count: usize,
    streams: [WideStream; MAX_STREAMS],
    flow: &[i64],
    numbers: &[i64],
) -> bool
    requires { (units ≤ max_units) × (count ≤ max_streams) × (count ≤ length flow.now) × (units < length numbers.now)
        × AllWithin units (wide_at streams) count }
    ensures { result ≡ rules_hold units count (wide_at streams) flow.now numbers.now }
{
    if !all_small(count, flow, MAX_WIDE_FLOW) {
        return false;
    }
    let places = units as usize + 1;
    if !all_small(places, numbers, MAX_WIDE_NUMBER) {
        return false;
    }
    if !nets_fit(units, count, streams, flow) {
        return false;
    }
    flows_fit(count, streams, flow, numbers)
}

// The first fault of the streams, then a broken rule.
pub fn check_flow(
    units: u8,
    count: usize,
    streams: [WideStream; MAX_STREAMS],
    flow: &[i64],
    numbers: &[i64],
) -> Result<(), Refusal>
    requires { (units ≤ max_units) × (count ≤ max_streams) × (count ≤ length flow.now) × (units < length numbers.now) }
    ensures { fault_in result ≡ first_of (wide_faults units (wide_at streams) count)
        (refuse_if (not (rules_hold units count (wide_at streams) flow.now numbers.now)) 26) }
{
    check_streams(units, count, streams)?;
    if !rules_hold(units, count, streams, flow, numbers) {
        return Err(Refusal::RuleBroken);
    }
    Ok(())
}
