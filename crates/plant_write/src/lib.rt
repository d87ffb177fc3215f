// The plant writer: the record of a stream, the whole file, and a reading written anew.
#![tactic(auto)]

pub mod numbered;

ghost use Rattle.std.specs.Prelude.{◌≡◌, suc, ◌≤◌, ◌*◌, length, [], ◌∷◌, ◌++◌};
ghost use Rattle.num_bytes.specs.Bytes.{over};
ghost use Rattle.num_bytes.specs.Inner.{Put};
ghost use Rattle.plant_def.specs.Limits.{ranged_kind, metered_body, ranged_body, max_streams, longest_file};
ghost use Rattle.plant_def.specs.Files.{meter_bytes, range_bytes, stream_bytes, streams_bytes, plant_bytes};
ghost use Rattle.plant_def.specs.Says.{plant_of, WriteSays};
ghost use Rattle.plant_def.specs.Views.{read_as, done_as};
ghost use Rattle.plant_def.specs.Needs.{WritesRead};

pub use numbered::write_read;
use plant_check::check_parts;
use plant_def::limits::{
    END, LONGEST_FILE, METERED, METERED_BODY, RANGED, RANGED_BODY, SITE, UNMETERED, UNMETERED_BODY,
};
use plant_def::refusal::Refusal;
use plant_def::{Plant, Stream};

// A kind and two places: the start of a stream record.
fn put_ends(kind: u8, from: u8, to: u8, out: &mut [u8])
    requires { 3 ≤ length out.old }
    ensures { out.new ≡ over (kind ∷ from ∷ to ∷ []) out.old }
{
    out[0] = kind;
    out[1] = from;
    out[2] = to;
}

// A kind, and what both kinds of metered stream have.
fn put_meter(kind: u8, s: Stream, out: &mut [u8])
    requires { suc metered_body ≤ length out.old }
    ensures { out.new ≡ over (kind ∷ meter_bytes s) out.old }
{
    put_ends(kind, s.from, s.to, out);
    num_bytes::put_u16(s.weight, &mut out[3..]);
    num_bytes::put_i32(s.reading, &mut out[5..]);
}

// The record of a metered stream with a range.
pub fn put_ranged(s: Stream, out: &mut [u8])
    requires { suc ranged_body ≤ length out.old }
    ensures { out.new ≡ over (ranged_kind ∷ meter_bytes s ++ range_bytes s) out.old }
{
    put_meter(RANGED, s, out);
    num_bytes::put_i32(s.low, &mut out[9..]);
    num_bytes::put_i32(s.high, &mut out[13..]);
}

// A stream record, and how many bytes it takes.
pub fn put_stream(s: Stream, out: &mut [u8]) -> usize
    requires { suc ranged_body ≤ length out.old }
    ensures { Put (stream_bytes s) out.old out.new result }
{
    if !s.metered {
        put_ends(UNMETERED, s.from, s.to, out);
        return 1 + UNMETERED_BODY;
    }
    if s.ranged {
        put_ranged(s, out);
        return 1 + RANGED_BODY;
    }
    put_meter(METERED, s, out);
    1 + METERED_BODY
}

// A kind and one number: the site record and the end record.
fn put_pair(kind: u8, value: u8, out: &mut [u8])
    requires { 2 ≤ length out.old }
    ensures { out.new ≡ over (kind ∷ value ∷ []) out.old }
{
    out[0] = kind;
    out[1] = value;
}

// The stream records, one after the other, and how many bytes they take.
fn put_streams(streams: &[Stream], out: &mut [u8]) -> usize
    requires { (length streams.now ≤ max_streams) × (max_streams * suc ranged_body ≤ length out.old) }
    ensures { Put (streams_bytes streams.now) out.old out.new result }
{
    let mut at: usize = 0;
    for s in streams {
        let size = put_stream(*s, &mut out[at..]);
        at += size;
    }
    at
}

// The whole file, and how many bytes it takes.
fn put_plant(p: &Plant, out: &mut [u8]) -> usize
    requires { (p.now.count ≤ max_streams) × (longest_file ≤ length out.old) }
    ensures { Put (plant_bytes (plant_of p.now)) out.old out.new result }
{
    put_pair(SITE, p.units, out);
    let at = 2 + put_streams(&p.streams[..p.count as usize], &mut out[2..]);
    put_pair(END, p.count, &mut out[at..]);
    at + 2
}

// The plant's file at the front of the slice, and how many bytes it takes; or a refusal that leaves the slice as it was.
pub fn write_plant(p: &Plant, file: &mut [u8]) -> Result<usize, Refusal>
    ensures { WriteSays p.now file.old file.new (done_as result) }
{
    if file.len() < LONGEST_FILE {
        return Err(Refusal::SliceTooShort);
    }
    check_parts(p)?;
    Ok(put_plant(p, file))
}

// What was read, written as the plant writer writes it; or a refusal: a slice that is too short, or the reading's own.
pub fn write_plant_read(read: Result<Plant, Refusal>, out: &mut [u8]) -> Result<usize, Refusal>
    ensures { WritesRead (read_as read) out.old out.new (done_as result) }
{
    if out.len() < LONGEST_FILE {
        return Err(Refusal::SliceTooShort);
    }
    write_plant(&read?, out)
}
