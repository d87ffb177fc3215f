// A kept sheet's streams, handed over in one slice for the kinds of their records and one for the flows.
#![tactic(auto)]

ghost use Rattle.std.specs.Prelude.{◌≡◌, ◌≤◌, length, take};
ghost use Rattle.num_bytes.specs.Bytes.{over};
ghost use Rattle.plant_def.specs.Limits.{max_streams};
ghost use Rattle.sheet_def.specs.Kept.{read_of};
ghost use Rattle.sheet_def.specs.Views.{sheet_as};
ghost use Rattle.sheet_parts.specs.Kept.{read_lent, kinds_of, flows_of};

use plant_def::limits::MAX_STREAMS;
use plant_def::refusal::Refusal;
use sheet_def::{Entry, SheetRead};
use sheet_read::kind_of;

// The reading, where each of the two slices holds as many as there may be.
pub fn read_lent(bytes: &[u8], kinds: usize, flows: usize) -> Result<SheetRead, Refusal>
    ensures { sheet_as result ≡ read_of (read_lent bytes.now kinds flows) }
{
    if kinds < MAX_STREAMS {
        return Err(Refusal::SliceTooShort);
    }
    if flows < MAX_STREAMS {
        return Err(Refusal::SliceTooShort);
    }
    sheet_read::read_sheet(bytes)
}

// The kinds of the first so many streams.
pub fn put_kinds(count: usize, streams: [Entry; MAX_STREAMS], kinds: &mut [u8])
    requires { (count ≤ max_streams) × (count ≤ length kinds.old) }
    ensures { kinds.new ≡ over (kinds_of (take count streams)) kinds.old }
{
    for k in 0..count {
        kinds[k] = kind_of(streams[k].class);
    }
}

// Their flows.
pub fn put_flows(count: usize, streams: [Entry; MAX_STREAMS], flows: &mut [i64])
    requires { (count ≤ max_streams) × (count ≤ length flows.old) }
    ensures { flows.new ≡ over (flows_of (take count streams)) flows.old }
{
    for k in 0..count {
        flows[k] = streams[k].flow;
    }
}
