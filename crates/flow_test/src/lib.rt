// The test of the whole: the weights of the adjusted streams, and the cost against a critical value.
#![tactic(auto)]

ghost use Rattle.std.specs.Prelude.{◌≡◌, ◌≤◌};
ghost use Rattle.plant_def.specs.declared.Stream.{Stream};
ghost use Rattle.plant_def.specs.Within.{Accepted};
ghost use Rattle.plant_def.specs.Says.{plant_of};
ghost use Rattle.flow_def.specs.Shown.{adjusted_weight, adjusted};
ghost use Rattle.flow_def.specs.Calls.{classes_of};
ghost use Rattle.plant_def.specs.Limits.{max_units};
ghost use Rattle.flow_def.specs.Test.{verdict_at};

use flow_def::Class;
use plant_def::Plant;
use plant_def::limits::{MAX_STREAMS, MAX_UNITS};

// The weight of a stream of a class, where it is adjusted.
pub fn adjusted_weight(class: Class, weight: u64) -> u64
    ensures { ((s : Stream) → s.weight ≡ weight → result ≡ adjusted_weight class s) × (result ≤ weight) }
{
    match class {
        Class::Adjusted => weight,
        Class::AsRead | Class::Given | Class::Withheld => 0,
    }
}

// The summed weights of the adjusted streams.
pub fn adjusted_weights(p: Plant, classes: [Class; MAX_STREAMS]) -> u64
    requires { Accepted p × (classes ≡ classes_of (plant_of p)) }
    ensures { result ≡ adjusted (plant_of p) }
{
    let mut sum: u64 = 0;
    for i in 0..p.count as usize {
        sum += adjusted_weight(classes[i], p.streams[i].weight as u64);
    }
    sum
}

// Critical values of chi-square at 95 per cent, in thousandths, by degrees minus one.
const CRITICAL: [u64; MAX_UNITS as usize] = [
    3841, 5991, 7815, 9488, 11070, 12592, 14067, 15507, 16919, 18307, 19675, 21026, 22362, 23685,
    24996, 26296, 27587, 28869, 30144, 31410, 32671, 33924, 35172, 36415, 37652, 38885, 40113,
    41337, 42557, 43773, 44985, 46194,
];

// The verdict by degrees, cost and the summed weights of the adjusted streams: 0 (pass), 1 (fail), 2 (none), 3 (close). What a
// cost is above the value is held against a quarter of the weights: four times the cost may pass 64 bits.
pub fn verdict(degrees: u8, cost: u64, weights: u64) -> u8
    requires { degrees ≤ max_units }
    ensures { result ≡ verdict_at degrees cost weights }
{
    if degrees == 0 {
        return 2;
    }
    let at = (degrees - 1) as usize;
    let value = CRITICAL[at];
    if cost <= value {
        return 0;
    }
    if cost - value <= weights / 4 {
        return 3;
    }
    1
}
