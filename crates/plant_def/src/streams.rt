// Streams.
ghost use Rattle.std.specs.Prelude.{◌≡◌};
ghost use Rattle.plant_def.specs.Plants.{unmetered};

use crate::Stream;

// An unmetered stream has neither weight, reading nor range.
pub fn unmetered_stream(from: u8, to: u8) -> Stream
    ensures { result ≡ unmetered from to }
{
    Stream {
        from,
        to,
        metered: false,
        weight: 0,
        reading: 0,
        ranged: false,
        low: 0,
        high: 0,
    }
}
