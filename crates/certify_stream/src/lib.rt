// One stream of wide numbers: its fault, its flow in range and the numbers at its ends within its bounds, what it brings to a place.
#![tactic(auto)]

ghost use Rattle.std.specs.Prelude.{◌≡◌, true, not, ◌&&◌, ◌||◌, pos, nat_abs, ◌-ℤ◌, ◌*ℤ◌, ◌≤◌, ◌^◌, ◌*◌, eqb, ltb, leb};
ghost use Rattle.std.specs.Int.Signed.{lt_z, le_z};
ghost use Rattle.num_bytes.specs.Choice.{pick, refuse_if};
ghost use Rattle.plant_def.specs.Plants.{limited};
ghost use Rattle.plant_def.specs.Refused.{fault_in};
ghost use Rattle.flow_def.specs.Flows.{in_range};
ghost use Rattle.flow_def.specs.Nets.{brought};
ghost use Rattle.flow_def.specs.Certificate.{rises, falls, lower, upper, least_climb, most_climb};
ghost use Rattle.foreign_def.specs.Test.{flow_fits};
ghost use Rattle.certify_def.specs.Number.{max_wide_weight, max_wide_reading, max_wide_flow, wide_fault};
ghost use Rattle.certify_def.specs.Test.{plainly, WideWithin};

use certify_def::{MAX_WIDE_READING, MAX_WIDE_WEIGHT, WideStream};
use plant_def::refusal::Refusal;

// A number within a limit.
pub fn is_small(z: i64, limit: u64) -> bool
    ensures { result ≡ leb (nat_abs z) limit }
{
    z.unsigned_abs() <= limit
}

fn check_weight(weight: u64) -> Result<(), Refusal>
    ensures { fault_in result ≡ refuse_if (eqb weight 0 || ltb max_wide_weight weight) 9 }
{
    if weight == 0 || MAX_WIDE_WEIGHT < weight {
        return Err(Refusal::Weight);
    }
    Ok(())
}

fn check_reading(reading: i64) -> Result<(), Refusal>
    ensures { fault_in result ≡ refuse_if (ltb max_wide_reading (nat_abs reading)) 10 }
{
    if MAX_WIDE_READING < reading.unsigned_abs() {
        return Err(Refusal::Reading);
    }
    Ok(())
}

fn check_range(ranged: bool, low: i64, high: i64) -> Result<(), Refusal>
    ensures { fault_in result ≡ refuse_if (ranged && lt_z high low) 18 }
{
    if ranged && high < low {
        return Err(Refusal::Range);
    }
    Ok(())
}

// The first fault of a stream's parts.
pub fn check_stream(units: u8, s: WideStream) -> Result<(), Refusal>
    ensures { fault_in result ≡ wide_fault units (plainly s) }
{
    if units < s.from || units < s.to {
        return Err(Refusal::Place);
    }
    if s.from == s.to {
        return Err(Refusal::SamePlace);
    }
    if s.metered {
        check_weight(s.weight)?;
        check_reading(s.reading)?;
        check_range(s.ranged, s.low, s.high)?;
    }
    Ok(())
}

// Whether a stream has a range.
fn has_range(s: WideStream) -> bool
    ensures { result ≡ limited (plainly s) }
{
    s.metered && s.ranged
}

// Whether a flow lies in the stream's range; whether less than it does, and more.
fn in_range(s: WideStream, x: i64) -> bool
    ensures { result ≡ in_range 1 (plainly s) x }
{
    !has_range(s) || (s.low <= x && x <= s.high)
}

fn may_fall(s: WideStream, x: i64) -> bool
    ensures { result ≡ falls (plainly s) x }
{
    !has_range(s) || s.low < x
}

fn may_rise(s: WideStream, x: i64) -> bool
    ensures { result ≡ rises (plainly s) x }
{
    !has_range(s) || x < s.high
}

// Flow minus reading.
fn correction(x: i64, reading: i64) -> i64
    requires { (nat_abs x ≤ max_wide_flow) × (nat_abs reading ≤ max_wide_reading) }
    ensures { (result ≡ x -ℤ reading) × (nat_abs result ≤ 2 ^ 56) }
{
    x - reading
}

// Whether m times by is at most n, by a quotient: the product need not fit 64 bits.
fn times_within(m: u64, by: u64, n: u64) -> bool
    requires { 1 ≤ by }
    ensures { result ≡ leb (m * by) n }
{
    m <= n / by
}

// Whether d times by is at most a: below zero the sizes are the other way round.
fn multiple_within(by: u64, d: i64, a: i64) -> bool
    requires { 1 ≤ by }
    ensures { result ≡ le_z (pos by *ℤ d) a }
{
    let size = d.unsigned_abs();
    let limit = a.unsigned_abs();
    if 0 <= d {
        if a < 0 {
            return false;
        }
        return times_within(size, by, limit);
    }
    if 0 <= a {
        return true;
    }
    !times_within(size, by, limit - 1)
}

// The bounds of a stream of this weight, d being flow minus reading: weight × (2 × d − 1) is at most the difference where 2 × weight × d is at
// most the difference and one weight more; the other bound is this one turned round.
fn above_lower(weight: u64, d: i64, difference: i64) -> bool
    requires { (1 ≤ weight) × (weight ≤ max_wide_weight) × (nat_abs difference ≤ 2 ^ 62) }
    ensures { result ≡ le_z (lower 1 weight d) difference }
{
    multiple_within(2 * weight, d, difference + weight as i64)
}

fn below_upper(weight: u64, d: i64, difference: i64) -> bool
    requires { (1 ≤ weight) × (weight ≤ max_wide_weight) × (nat_abs d ≤ 2 ^ 56) × (nat_abs difference ≤ 2 ^ 62) }
    ensures { result ≡ le_z difference (upper 1 weight d) }
{
    multiple_within(2 * weight, 0 - d, weight as i64 - difference)
}

// The difference is at least what the numbers must climb along a stream, and at most what they may: 0 without a meter.
fn climbs_enough(s: WideStream, x: i64, difference: i64) -> bool
    requires { WideWithin 255 (plainly s) × (nat_abs x ≤ max_wide_flow) × (nat_abs difference ≤ 2 ^ 62) }
    ensures { result ≡ le_z (least_climb (plainly s) x) difference }
{
    if s.metered {
        let d = correction(x, s.reading);
        return above_lower(s.weight, d, difference);
    }
    0 <= difference
}

fn climbs_little(s: WideStream, x: i64, difference: i64) -> bool
    requires { WideWithin 255 (plainly s) × (nat_abs x ≤ max_wide_flow) × (nat_abs difference ≤ 2 ^ 62) }
    ensures { result ≡ le_z difference (most_climb (plainly s) x) }
{
    if s.metered {
        let d = correction(x, s.reading);
        return below_upper(s.weight, d, difference);
    }
    difference <= 0
}

// The difference is not below the bottom, but where the flow is at low; and not above the top, but where it is at high.
fn from_bottom(s: WideStream, x: i64, difference: i64) -> bool
    requires { WideWithin 255 (plainly s) × (nat_abs x ≤ max_wide_flow) × (nat_abs difference ≤ 2 ^ 62) }
    ensures { result ≡ (not (falls (plainly s) x) || le_z (least_climb (plainly s) x) difference) }
{
    !may_fall(s, x) || climbs_enough(s, x, difference)
}

fn to_top(s: WideStream, x: i64, difference: i64) -> bool
    requires { WideWithin 255 (plainly s) × (nat_abs x ≤ max_wide_flow) × (nat_abs difference ≤ 2 ^ 62) }
    ensures { result ≡ (not (rises (plainly s) x) || le_z difference (most_climb (plainly s) x)) }
{
    !may_rise(s, x) || climbs_little(s, x, difference)
}

// A stream with this flow and this difference of the numbers at its ends.
pub fn flow_fits(s: WideStream, x: i64, difference: i64) -> bool
    requires { WideWithin 255 (plainly s) × (nat_abs x ≤ max_wide_flow) × (nat_abs difference ≤ 2 ^ 62) }
    ensures { result ≡ flow_fits (plainly s) x difference }
{
    in_range(s, x) && from_bottom(s, x, difference) && to_top(s, x, difference)
}

// What a stream that carries x brings to place u, less what it takes from it.
fn end_at(end: u8, u: u8, x: i64) -> i64
    ensures { result ≡ pick (eqb end u) x (pos 0) }
{
    if end == u {
        return x;
    }
    0
}

pub fn brought_to(u: u8, s: WideStream, x: i64) -> i64
    requires { nat_abs x ≤ max_wide_flow }
    ensures { (result ≡ brought u (plainly s) x) × (nat_abs result ≤ 2 * max_wide_flow) }
{
    let into = end_at(s.to, u, x);
    let out = end_at(s.from, u, x);
    into - out
}
