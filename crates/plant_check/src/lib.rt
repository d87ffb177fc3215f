// The faults of a plant's parts: of its units, of a stream, of all its streams.
#![tactic(auto)]

ghost use Rattle.std.specs.Prelude.{◌≡◌, take};
ghost use Rattle.plant_def.specs.Refused.{fault_in};
ghost use Rattle.plant_def.specs.Plants.{units_fault, meter_fault, range_fault, stream_fault, first_fault, parts_fault};

use plant_def::limits::{MAX_RANGE, MAX_READING, MAX_STREAMS, MAX_UNITS, MAX_WEIGHT};
use plant_def::refusal::Refusal;
use plant_def::{Plant, Stream};

pub fn check_units(units: u8) -> Result<(), Refusal>
    ensures { fault_in result ≡ units_fault units }
{
    if units == 0 || MAX_UNITS < units {
        return Err(Refusal::Units);
    }
    Ok(())
}

fn check_meter(weight: u16, reading: i32) -> Result<(), Refusal>
    ensures { fault_in result ≡ meter_fault weight reading }
{
    if weight == 0 || MAX_WEIGHT < weight {
        return Err(Refusal::Weight);
    }
    if MAX_READING.unsigned_abs() < reading.unsigned_abs() {
        return Err(Refusal::Reading);
    }
    Ok(())
}

fn check_range(ranged: bool, low: i32, high: i32) -> Result<(), Refusal>
    ensures { fault_in result ≡ range_fault ranged low high }
{
    let limit = MAX_RANGE.unsigned_abs();
    if ranged && (high < low || limit < low.unsigned_abs() || limit < high.unsigned_abs()) {
        return Err(Refusal::Range);
    }
    Ok(())
}

pub fn check_stream(units: u8, s: Stream) -> Result<(), Refusal>
    ensures { fault_in result ≡ stream_fault units s }
{
    if units < s.from || units < s.to {
        return Err(Refusal::Place);
    }
    if s.from == s.to {
        return Err(Refusal::SamePlace);
    }
    if s.metered {
        check_meter(s.weight, s.reading)?;
        check_range(s.ranged, s.low, s.high)?;
    }
    Ok(())
}

// The first fault of a list of streams.
fn check_streams(units: u8, streams: &[Stream]) -> Result<(), Refusal>
    ensures { fault_in result ≡ first_fault units streams.now }
{
    for s in streams {
        check_stream(units, *s)?;
    }
    Ok(())
}

// The first fault of a plant's parts.
pub fn check_parts(p: &Plant) -> Result<(), Refusal>
    ensures { fault_in result ≡ parts_fault p.now.units p.now.count (take p.now.count p.now.streams) }
{
    check_units(p.units)?;
    let count = p.count as usize;
    if MAX_STREAMS < count {
        return Err(Refusal::TooManyStreams);
    }
    check_streams(p.units, &p.streams[..count])
}
