// A plant file's parts, handed over in one lent slice each: the form in which the exported plant writer takes them.
#![tactic(auto)]

ghost use Rattle.std.specs.Prelude.{◌≡◌, ◌≤◌, length};
ghost use Rattle.plant_def.specs.Limits.{max_streams};
ghost use Rattle.plant_def.specs.Says.{read_of};
ghost use Rattle.plant_def.specs.Views.{read_as};
ghost use Rattle.plant_lent.specs.Inner.{read_lent, Front, from_of, to_of, metered_of, weight_of, reading_of, ranged_of, low_of, high_of};

use plant_def::limits::MAX_STREAMS;
use plant_def::refusal::Refusal;
use plant_def::{Plant, Stream};

// The reading, where every slice reaches as many streams as there may be.
pub fn read_lent(file: &[u8], reach: usize) -> Result<Plant, Refusal>
    ensures { read_as result ≡ read_of (read_lent file.now reach) }
{
    if reach < MAX_STREAMS {
        return Err(Refusal::SliceTooShort);
    }
    plant_read::read_plant(file)
}

// The ends of the first so many streams.
pub fn put_ends(count: usize, streams: [Stream; MAX_STREAMS], from: &mut [u8], to: &mut [u8])
    requires { (count ≤ max_streams) × (count ≤ length from.old) × (count ≤ length to.old) }
    ensures { Front from_of count streams from × Front to_of count streams to }
{
    for (k, s) in streams[..count].iter().enumerate() {
        from[k] = s.from;
        to[k] = s.to;
    }
}

// Whether they are metered, their weights and their readings.
pub fn put_meters(
    count: usize,
    streams: [Stream; MAX_STREAMS],
    metered: &mut [u8],
    weight: &mut [u16],
    reading: &mut [i32],
)
    requires { (count ≤ max_streams) × (count ≤ length metered.old) × (count ≤ length weight.old) × (count ≤ length reading.old) }
    ensures { Front metered_of count streams metered × Front weight_of count streams weight × Front reading_of count streams reading }
{
    for (k, s) in streams[..count].iter().enumerate() {
        metered[k] = u8::from(s.metered);
        weight[k] = s.weight;
        reading[k] = s.reading;
    }
}

// Whether they have ranges, and the ends of these.
pub fn put_ranges(
    count: usize,
    streams: [Stream; MAX_STREAMS],
    ranged: &mut [u8],
    low: &mut [i32],
    high: &mut [i32],
)
    requires { (count ≤ max_streams) × (count ≤ length ranged.old) × (count ≤ length low.old) × (count ≤ length high.old) }
    ensures { Front ranged_of count streams ranged × Front low_of count streams low × Front high_of count streams high }
{
    for (k, s) in streams[..count].iter().enumerate() {
        ranged[k] = u8::from(s.ranged);
        low[k] = s.low;
        high[k] = s.high;
    }
}
