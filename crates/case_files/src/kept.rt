// The sheet reader.
//
// An entry is 9 bytes: the kind of its record, its flow (8, two's complement).
ghost use Rattle.std.specs.Prelude.{◌≡◌, ◌≤◌, length};

use crate::cases::{NO_CASE, told};
use plant_def::limits::MAX_STREAMS;
use sheet_def::{Entry, Total};

fn put_entry(e: Entry, out: &mut [u8])
    requires { 9 ≤ length out.old }
{
    num_bytes::put_i64(e.flow, &mut out[1..]);
    out[0] = sheet_read::kind_of(e.class);
}

fn put_entries(streams: &[Entry], out: &mut [u8])
    requires { (length streams.now ≤ 96) × (length out.old ≡ 864) }
{
    for (i, e) in streams.iter().enumerate() {
        put_entry(*e, &mut out[9 * i..]);
    }
}

fn put_total(total: Total, out: &mut [u8])
    requires { 12 ≤ length out.old }
{
    num_bytes::put_u8(total.kind, out);
    num_bytes::put_u8(total.office, &mut out[1..]);
    num_bytes::put_u64(total.cost, &mut out[2..]);
    num_bytes::put_u8(total.degrees, &mut out[10..]);
    num_bytes::put_u8(total.verdict, &mut out[11..]);
}

// The sheet reader: handed in the sheet; the count is how many streams, the number the sheet's, and the slice, of 876 bytes, gets
// the kind of the total, the office, cost (8), degrees, verdict and an entry for each stream.
pub fn kept(given: &[u8], out: &mut [u8]) -> u64 {
    if out.len() != 876 {
        return NO_CASE;
    }
    let read = match sheet_read::read_sheet(given) {
        Ok(read) => read,
        Err(refusal) => {
            out[..12].fill(0);
            return told(refusal.number(), 0, 0);
        }
    };
    let count = read.count as usize;
    if MAX_STREAMS < count {
        return NO_CASE;
    }
    put_entries(&read.streams[..count], &mut out[12..]);
    put_total(read.total, out);
    told(0, count, read.total.sheet)
}
