// Plants moved to the ranged form and home again: a stream, all streams, and the two calls.
#![tactic(auto)]

ghost use Rattle.std.specs.Prelude.{◌≡◌, map};
ghost use Rattle.ranged_def.specs.Moves.{widened, bared, narrower, narrow_fault, to_ranged, from_ranged, ToSays, FromSays};
ghost use Rattle.plant_def.specs.Files.{read_plant};
ghost use Rattle.plant_def.specs.Says.{read_of};
ghost use Rattle.plant_def.specs.Refused.{fault_in};
ghost use Rattle.plant_def.specs.Views.{read_as, done_as};

use plant_def::limits::{MAX_RANGE, MAX_STREAMS};
use plant_def::refusal::Refusal;
use plant_def::{Plant, Stream};
use plant_read::read_plant;
use plant_write::write_plant_read;

// The widest range for a metered stream without one.
pub fn widen(s: Stream) -> Stream
    ensures { result ≡ widened s }
{
    if !s.metered || s.ranged {
        return s;
    }
    Stream {
        ranged: true,
        low: -MAX_RANGE,
        high: MAX_RANGE,
        ..s
    }
}

// No range for a metered stream with one.
pub fn bare(s: Stream) -> Stream
    ensures { result ≡ bared s }
{
    if !s.metered || !s.ranged {
        return s;
    }
    Stream {
        ranged: false,
        low: 0,
        high: 0,
        ..s
    }
}

// Each stream of an array becomes what it is in the ranged form.
fn widen_all(streams: &mut [Stream; MAX_STREAMS])
    ensures { streams.new ≡ map widened streams.old }
{
    for k in 0..MAX_STREAMS {
        streams[k] = widen(streams[k]);
    }
}

// Each stream of an array becomes what it is at home.
// Stays beside `widen_all`: one function for both would take a flag or a closure, and is no plainer.
fn bare_all(streams: &mut [Stream; MAX_STREAMS])
    ensures { streams.new ≡ map bared streams.old }
{
    for i in 0..MAX_STREAMS {
        streams[i] = bare(streams[i]);
    }
}

// Whether a stream's range is narrower than the widest.
pub fn narrow(s: Stream) -> bool
    ensures { result ≡ narrower s }
{
    s.metered && s.ranged && (-MAX_RANGE < s.low || s.high < MAX_RANGE)
}

// Any range is narrower than the widest: 20.
pub fn narrow_fault(streams: [Stream; MAX_STREAMS]) -> Result<(), Refusal>
    ensures { fault_in result ≡ narrow_fault streams }
{
    if streams.iter().any(|s| narrow(*s)) {
        return Err(Refusal::Narrower);
    }
    Ok(())
}

// The plant of a file, moved to the ranged form; or the reader's refusal. (The empty records past the last stream stay empty.)
fn read_forward(file: &[u8]) -> Result<Plant, Refusal>
    ensures { read_as result ≡ read_of (to_ranged (read_plant file.now)) }
{
    let mut p = read_plant(file)?;
    widen_all(&mut p.streams);
    Ok(p)
}

// The plant of a file, moved home; or the reader's refusal, or 20.
#[tactic(auto, using(crate::proofs::Told::home_told))]
fn read_home(file: &[u8]) -> Result<Plant, Refusal>
    ensures { read_as result ≡ read_of (from_ranged (read_plant file.now)) }
{
    let mut ranged = read_plant(file)?;
    narrow_fault(ranged.streams)?;
    bare_all(&mut ranged.streams);
    Ok(ranged)
}

// The plant file in the ranged form, at the front of the slice, and how many bytes it takes; or a refusal that leaves the slice as it was.
pub fn to_ranged(file: &[u8], out: &mut [u8]) -> Result<usize, Refusal>
    ensures { ToSays file.now out.old out.new (done_as result) }
{
    write_plant_read(read_forward(file), out)
}

// The plant file without its widest ranges, at the front of the slice, and how many bytes it takes; or a refusal that leaves the slice
// as it was.
pub fn from_ranged(file: &[u8], out: &mut [u8]) -> Result<usize, Refusal>
    ensures { FromSays file.now out.old out.new (done_as result) }
{
    write_plant_read(read_home(file), out)
}
