// One stream of a sheet drawn up elsewhere: its flow in range, and the numbers at its ends within its bounds.
#![tactic(auto)]

ghost use Rattle.std.specs.Prelude.{◌≡◌, not, ◌||◌, nat_abs, ◌-ℤ◌, ◌≤◌, ◌^◌};
ghost use Rattle.std.specs.Int.Signed.{le_z};
ghost use Rattle.plant_def.specs.Limits.{max_units, max_weight};
ghost use Rattle.plant_def.specs.Plants.{limited};
ghost use Rattle.plant_def.specs.Within.{WithinStream};
ghost use Rattle.flow_def.specs.Flows.{in_range};
ghost use Rattle.flow_def.specs.Certificate.{weight_of, rises, falls, lower, upper, least_climb, most_climb};
ghost use Rattle.sheet_def.specs.Calls.{Small};
ghost use Rattle.foreign_def.specs.Test.{flow_fits};

use plant_def::Stream;

// Whether a stream has a range.
fn has_range(s: Stream) -> bool
    ensures { result ≡ limited s }
{
    s.metered && s.ranged
}

// Whether a flow lies in the stream's range; whether less than it does, and more.
fn in_range(s: Stream, x: i64) -> bool
    ensures { result ≡ in_range 1 s x }
{
    !has_range(s) || (s.low as i64 <= x && x <= s.high as i64)
}

fn may_fall(s: Stream, x: i64) -> bool
    ensures { result ≡ falls s x }
{
    !has_range(s) || x > s.low as i64
}

fn may_rise(s: Stream, x: i64) -> bool
    ensures { result ≡ rises s x }
{
    !has_range(s) || x < s.high as i64
}

// The weight of a stream, 0 without a meter.
fn weight_of(s: Stream) -> u16
    requires { WithinStream max_units s }
    ensures { (result ≡ weight_of s) × (result ≤ max_weight) }
{
    if s.metered {
        return s.weight;
    }
    0
}

// Flow minus reading.
fn correction(x: i64, reading: i32) -> i64
    requires { Small x }
    ensures { (result ≡ x -ℤ reading) × (nat_abs result ≤ 2 ^ 47) }
{
    x - reading as i64
}

// The bounds of a stream of this weight, d being flow minus reading.
fn bottom_of(weight: u16, d: i64) -> i64
    requires { (weight ≤ max_weight) × (nat_abs d ≤ 2 ^ 47) }
    ensures { result ≡ lower 1 weight d }
{
    weight as i64 * (2 * d - 1)
}

fn top_of(weight: u16, d: i64) -> i64
    requires { (weight ≤ max_weight) × (nat_abs d ≤ 2 ^ 47) }
    ensures { result ≡ upper 1 weight d }
{
    weight as i64 * (2 * d + 1)
}

// The difference is not below the bottom, but where the flow is at low; and not above the top, but where it is at high.
fn from_bottom(s: Stream, x: i64, difference: i64) -> bool
    requires { WithinStream max_units s × Small x }
    ensures { result ≡ (not (falls s x) || le_z (least_climb s x) difference) }
{
    !may_fall(s, x) || bottom_of(weight_of(s), correction(x, s.reading)) <= difference
}

fn to_top(s: Stream, x: i64, difference: i64) -> bool
    requires { WithinStream max_units s × Small x }
    ensures { result ≡ (not (rises s x) || le_z difference (most_climb s x)) }
{
    !may_rise(s, x) || difference <= top_of(weight_of(s), correction(x, s.reading))
}

// A stream with this flow and this difference of the numbers at its ends.
pub fn flow_fits(s: Stream, x: i64, difference: i64) -> bool
    requires { WithinStream max_units s × Small x }
    ensures { result ≡ flow_fits s x difference }
{
    in_range(s, x) && from_bottom(s, x, difference) && to_top(s, x, difference)
}
