// A sheet drawn up elsewhere: the numbers of the places, the kinds of its records, its flows stream by stream.
#![tactic(auto)]

ghost use Rattle.std.specs.Prelude.{◌↔◌, IsTrue, EachIndex, ◌≡◌, true, ◌&&◌, pos, nat_abs, ◌≤◌, ◌<◌, eqb, leb, length, get_or};
ghost use Rattle.num_bytes.specs.Choice.{pick};
ghost use Rattle.plant_def.specs.Limits.{max_streams};
ghost use Rattle.plant_def.specs.Within.{Accepted};
ghost use Rattle.plant_def.specs.Says.{plant_of};
ghost use Rattle.flow_def.specs.declared.Class.TheVariants.{Adjusted};
ghost use Rattle.flow_def.specs.Flows.{amount_at};
ghost use Rattle.solve_def.specs.Sizes.{flow_shift};
ghost use Rattle.sheet_def.specs.Sheets.{kind_of, known};
ghost use Rattle.sheet_def.specs.Calls.{AllSmall, no_entry};
ghost use Rattle.foreign_def.specs.Passing.{number_limit, place_number, difference};
ghost use Rattle.foreign_def.specs.Test.{numbers_fit, records_fit, flows_fit, flows_shown};

use flow_def::Class;
use foreign_def::NUMBER_LIMIT;
use foreign_stream::flow_fits;
use plant_def::limits::MAX_STREAMS;
use plant_def::{Plant, Stream};
use sheet_def::Entry;
use sheet_read::kind_of;
use solve_def::sizes::FLOW_SHIFT;

// A number within the limit.
fn is_small(z: i64) -> bool
    ensures { result ≡ leb (nat_abs z) number_limit }
{
    z.unsigned_abs() <= NUMBER_LIMIT
}

// Whether each number is within the limit.
fn all_small(numbers: &[i64]) -> bool
    ensures { IsTrue result ↔ EachIndex numbers.now (λ k. IsTrue (leb (nat_abs (place_number numbers.now k)) number_limit)) }
{
    numbers.iter().all(|number| is_small(*number))
}

// One number for each of the places 0 to n, within the limit.
pub fn numbers_fit(units: u8, numbers: &[i64]) -> bool
    ensures { result ≡ numbers_fit units numbers.now }
{
    numbers.len() == units as usize + 1 && all_small(numbers)
}

// The flow that a stream of this class shows: none where it is withheld, and 0 stands for that.
fn shown_flow(class: Class, flow: i64) -> i64
    ensures { result ≡ pick (known class) flow (pos 0) }
{
    match class {
        Class::Adjusted | Class::AsRead | Class::Given => flow,
        Class::Withheld => 0,
    }
}

// The flows that a sheet's entries show by our classes.
pub fn shown_flows(
    classes: [Class; MAX_STREAMS],
    entries: [Entry; MAX_STREAMS],
) -> [i64; MAX_STREAMS]
    ensures { result ≡ flows_shown classes entries }
{
    let mut flows = [0i64; MAX_STREAMS];
    for (i, flow) in flows.iter_mut().enumerate() {
        *flow = shown_flow(classes[i], entries[i].flow);
    }
    flows
}

// A record is of our kind, and its flow not too large.
fn record_fits(theirs: Class, ours: Class, x: i64) -> bool
    ensures { result ≡ (eqb (kind_of theirs) (kind_of ours) && leb (nat_abs x) flow_shift) }
{
    kind_of(theirs) == kind_of(ours) && x.unsigned_abs() <= FLOW_SHIFT
}

// So are all records.
pub fn records_fit(
    count: u8,
    entries: [Entry; MAX_STREAMS],
    classes: [Class; MAX_STREAMS],
    flows: [i64; MAX_STREAMS],
) -> bool
    requires { count ≤ max_streams }
    ensures { result ≡ records_fit count (λ k. (get_or entries k no_entry).class) (λ k. get_or classes k Adjusted) (amount_at flows) }
{
    for i in 0..count as usize {
        if !record_fits(entries[i].class, classes[i], flows[i]) {
            return false;
        }
    }
    true
}

// The difference of the numbers at a stream's ends.
fn difference_at(numbers: &[i64], s: Stream) -> i64
    requires from_in_bounds { (s.from < length numbers.now) × (s.to < length numbers.now) }
    requires from_bound { (nat_abs (place_number numbers.now s.from) ≤ number_limit) × (nat_abs (place_number numbers.now s.to) ≤ number_limit) }
    ensures { result ≡ difference numbers.now s }
{
    let u = s.from as usize;
    let v = s.to as usize;
    numbers[v] - numbers[u]
}

// Each flow is in range, and the numbers at the stream's ends are within its bounds.
pub fn flows_fit(p: Plant, flows: [i64; MAX_STREAMS], numbers: &[i64]) -> bool
    requires { Accepted p × AllSmall flows × (numbers_fit p.units numbers.now ≡ true) }
    ensures { result ≡ flows_fit (plant_of p).streams (amount_at flows) numbers.now }
{
    for i in 0..p.count as usize {
        let s = p.streams[i];
        if !flow_fits(s, flows[i], difference_at(numbers, s)) {
            return false;
        }
    }
    true
}
