// A plant's streams, gathered from one slice for each part, and how many of them the slices reach.
#![tactic(auto)]

ghost use Rattle.std.specs.Prelude.{◌≡◌, ◌<◌, ◌≤◌, length, get_or};
ghost use Rattle.plant_parts.specs.Parts.{listed_to, least};
ghost use Rattle.plant_parts.specs.Inner.{meter_at, range_at, held_count, meters_reach};
ghost use Rattle.plant_def.specs.Plants.{no_stream};
ghost use Rattle.plant_def.specs.Says.{padded};
ghost use Rattle.plant_def.specs.Limits.{max_streams};

use plant_def::Stream;
use plant_def::limits::MAX_STREAMS;
use plant_def::streams::unmetered_stream;

// The stream at a place that these slices reach, without its range.
fn meter_at(
    from: &[u8],
    to: &[u8],
    metered: &[u8],
    weight: &[u16],
    reading: &[i32],
    k: usize,
) -> Stream
    requires { (k < length from.now) × (k < length to.now) × (k < length metered.now) × (k < length weight.now) × (k < length reading.now) }
    ensures { result ≡ meter_at from.now to.now metered.now weight.now reading.now k }
{
    Stream {
        from: from[k],
        to: to[k],
        metered: metered[k] != 0,
        weight: weight[k],
        reading: reading[k],
        ranged: false,
        low: 0,
        high: 0,
    }
}

// The first n streams without their ranges, and empty records after them.
pub fn meters_gathered(
    n: usize,
    from: &[u8],
    to: &[u8],
    metered: &[u8],
    weight: &[u16],
    reading: &[i32],
) -> [Stream; MAX_STREAMS]
    requires { (n ≤ max_streams) × (n ≤ length from.now) × (n ≤ length to.now) × (n ≤ length metered.now)
        × (n ≤ length weight.now) × (n ≤ length reading.now) }
    ensures { result ≡ padded max_streams
        (listed_to (meter_at from.now to.now metered.now weight.now reading.now) n) }
{
    let mut streams = [unmetered_stream(0, 0); MAX_STREAMS];
    for k in 0..n {
        streams[k] = meter_at(from, to, metered, weight, reading, k);
    }
    streams
}

// A stream with the range at a place that these slices reach.
fn range_at(ranged: &[u8], low: &[i32], high: &[i32], s: Stream, k: usize) -> Stream
    requires { (k < length ranged.now) × (k < length low.now) × (k < length high.now) }
    ensures { result ≡ range_at ranged.now low.now high.now s k }
{
    Stream {
        ranged: ranged[k] != 0,
        low: low[k],
        high: high[k],
        ..s
    }
}

// The first n streams with their ranges, and empty records after them.
pub fn ranges_gathered(
    n: usize,
    meters: [Stream; MAX_STREAMS],
    ranged: &[u8],
    low: &[i32],
    high: &[i32],
) -> [Stream; MAX_STREAMS]
    requires { (n ≤ max_streams) × (n ≤ length ranged.now) × (n ≤ length low.now) × (n ≤ length high.now) }
    ensures { result ≡ padded max_streams
        (listed_to (λ k. range_at ranged.now low.now high.now (get_or meters k no_stream) k) n) }
{
    let mut streams = [unmetered_stream(0, 0); MAX_STREAMS];
    for k in 0..n {
        streams[k] = range_at(ranged, low, high, meters[k], k);
    }
    streams
}

// A count in a byte: one over the limit stays over it.
pub fn count_byte(count: usize) -> u8
    ensures { result ≡ held_count count }
{
    count.min(MAX_STREAMS + 1) as u8
}

// How many streams the slices of ends and meters reach.
pub fn meters_reach(
    from: &[u8],
    to: &[u8],
    metered: &[u8],
    weight: &[u16],
    reading: &[i32],
) -> usize
    ensures { result ≡ meters_reach from.now to.now metered.now weight.now reading.now }
{
    let ends = from.len().min(to.len());
    let meters = weight.len().min(reading.len());
    ends.min(metered.len().min(meters))
}

// How many streams the slices of ranges reach.
pub fn ranges_reach(ranged: &[u8], low: &[i32], high: &[i32]) -> usize
    ensures { result ≡ least (length ranged.now) (least (length low.now) (length high.now)) }
{
    ranged.len().min(low.len().min(high.len()))
}

// How many streams every slice reaches, up to the limit.
pub fn reached(meters: usize, ranges: usize) -> usize
    ensures { result ≡ least max_streams (least meters ranges) }
{
    MAX_STREAMS.min(meters.min(ranges))
}
