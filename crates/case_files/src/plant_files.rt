// The plant reader and the plant writer.
//
// A stream is 17 bytes: 1 where it is metered and 2 where it has a range, added; from, to, weight (2); reading, low, high (4
// each, two's complement).
ghost use Rattle.std.specs.Prelude.{◌≡◌, ◌≤◌, length};

use crate::cases::{NO_CASE, told};
use plant_def::limits::MAX_STREAMS;
use plant_def::streams::unmetered_stream;
use plant_def::{Plant, Stream};
use plant_write::numbered::{Done, by_number};

// A stream's bytes are those of a record with a range, but for the first.
fn put_stream(s: Stream, out: &mut [u8])
    requires { 17 ≤ length out.old }
{
    plant_write::put_ranged(s, out);
    out[0] = s.metered as u8 | (s.ranged as u8) << 1;
}

fn put_streams(streams: [Stream; MAX_STREAMS], out: &mut [u8])
    requires { length out.old ≡ 1632 }
{
    for (i, s) in streams.iter().enumerate() {
        put_stream(*s, &mut out[17 * i..]);
    }
}

// The plant reader: the count is the units, the number how many streams, and the slice, of 1,632 bytes, gets the 96 streams.
pub fn reader(given: &[u8], out: &mut [u8]) -> u64 {
    if out.len() != 1632 {
        return NO_CASE;
    }
    match plant_read::read_plant(given) {
        Ok(p) => {
            put_streams(p.streams, out);
            told(0, p.units as usize, p.count as u32)
        }
        Err(refusal) => {
            out.fill(0);
            told(refusal.number(), 0, 0)
        }
    }
}

fn stream_of(part: &[u8]) -> Stream
    requires { 17 ≤ length part.now }
{
    Stream {
        from: part[1],
        to: part[2],
        metered: part[0] % 2 != 0,
        weight: num_bytes::get_u16(&part[3..]),
        reading: num_bytes::get_i32(&part[5..]),
        ranged: 2 <= part[0],
        low: num_bytes::get_i32(&part[9..]),
        high: num_bytes::get_i32(&part[13..]),
    }
}

// The units, how many streams, and 96 streams.
fn plant_of(given: &[u8]) -> Plant
    requires { length given.now ≡ 1634 }
{
    let mut streams = [unmetered_stream(0, 0); MAX_STREAMS];
    for (i, s) in streams.iter_mut().enumerate() {
        *s = stream_of(&given[2 + 17 * i..]);
    }
    Plant {
        units: given[0],
        count: given[1],
        streams,
    }
}

// A plant file written: no number.
pub fn written(d: Done) -> u64 {
    told(d.number, d.written, 0)
}

// The plant writer: handed in a plant.
pub fn writer(given: &[u8], out: &mut [u8]) -> u64 {
    if given.len() != 1634 {
        return NO_CASE;
    }
    written(by_number(plant_write::write_plant(&plant_of(given), out)))
}
