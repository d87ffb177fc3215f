// Numbers handed over: arrays at the front of a lent slice, and marked places as the bits of a number.
#![tactic(auto)]

ghost use Rattle.std.specs.Prelude.{◌≡◌, ◌≤◌, ◌<◌, ◌^◌, length, take};
ghost use Rattle.num_bytes.specs.Bytes.{over};
ghost use Rattle.plant_def.specs.Limits.{max_streams, places};
ghost use Rattle.num_lent.specs.Marks.{marks_in};

use plant_def::limits::{MAX_STREAMS, PLACES};

// Numbers at the front of a slice.
pub fn put_front<T: Copy>(found: &[T], out: &mut [T])
    requires { length found.now ≤ length out.old }
    ensures { out.new ≡ over found.now out.old }
{
    out[..found.len()].copy_from_slice(found);
}

// The first so many numbers of a byte.
pub fn put_bytes(count: usize, found: [u8; MAX_STREAMS], out: &mut [u8])
    requires { (count ≤ max_streams) × (count ≤ length out.old) }
    ensures { out.new ≡ over (take count found) out.old }
{
    put_front(&found[..count], out);
}

// The first so many numbers of eight bytes.
pub fn put_words(count: usize, found: [u64; MAX_STREAMS], out: &mut [u64])
    requires { (count ≤ max_streams) × (count ≤ length out.old) }
    ensures { out.new ≡ over (take count found) out.old }
{
    put_front(&found[..count], out);
}

// The first so many signed numbers of eight bytes.
pub fn put_signed(count: usize, found: [i64; MAX_STREAMS], out: &mut [i64])
    requires { (count ≤ max_streams) × (count ≤ length out.old) }
    ensures { out.new ≡ over (take count found) out.old }
{
    put_front(&found[..count], out);
}

// Bit u is 1 if place u is marked.
pub fn bits_of(marked: [bool; PLACES]) -> u64
    ensures { (marks_in result ≡ marked) × (result < 2 ^ places) }
{
    let mut bits: u64 = 0;
    for (u, mark) in marked.iter().enumerate() {
        bits += u64::from(*mark) << u;
    }
    bits
}
