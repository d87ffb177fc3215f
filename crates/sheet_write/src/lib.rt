// The bytes of a sheet, and the sheet of an outcome drawn in a lent slice under the calling office's next number. Each writer is
// lent the part of the slice that starts at the next free byte. A call that draws no sheet has its refusal here too. It stands
// below the solver.
#![tactic(auto)]

ghost use Rattle.std.specs.Prelude.{◌≡◌, [], ◌∷◌, ◌++◌, ◌≤◌, ◌*◌, ◌<◌, length, take, eqb, leb};
ghost use Rattle.num_bytes.specs.Bytes.{put_be, raw, over};
ghost use Rattle.num_bytes.specs.Inner.{Put};
ghost use Rattle.plant_def.specs.Limits.{max_streams};
ghost use Rattle.plant_def.specs.Refused.{fault_in};
ghost use Rattle.sheet_def.specs.Sheets.{record_of, records_of, total_of};
ghost use Rattle.sheet_def.specs.Totals.{total_kind, stream_size, total_size, least_slice};
ghost use Rattle.sheet_def.specs.Drawings.{sheet_bytes};
ghost use Rattle.num_bytes.specs.Choice.{refuse_if};
ghost use Rattle.flow_def.specs.Overfull.{unmarked};
ghost use Rattle.sheet_def.specs.Counters.{offices, top_sheet, counter_of, raised};
ghost use Rattle.sheet_def.specs.Sentences.{call_fault};
ghost use Rattle.sheet_write.specs.Draws.{DrawnOf};

use flow_def::Class;
use plant_def::limits::{MAX_STREAMS, PLACES};
use plant_def::refusal::Refusal;
use sheet_def::kinds::{
    LEAST_SLICE, OFFICES, STREAM_SIZE, TOP_SHEET, TOTAL, TOTAL_SIZE, WITHHELD, kind_of,
};
use sheet_def::{Balance, Entry, Outcome, Sheet};

// A kind and a flow.
fn put_flow(kind: u8, flow: i64, out: &mut [u8])
    requires { stream_size ≤ length out.old }
    ensures { out.new ≡ over (kind ∷ put_be 8 (raw 8 flow)) out.old }
{
    num_bytes::put_u8(kind, out);
    num_bytes::put_i64(flow, &mut out[1..]);
}

// A stream's record, and how many bytes it takes. The blank has no body.
fn put_record(class: Class, flow: i64, out: &mut [u8]) -> usize
    requires { stream_size ≤ length out.old }
    ensures { Put (record_of class flow) out.old out.new result }
{
    let kind = kind_of(class);
    if kind == WITHHELD {
        num_bytes::put_u8(kind, out);
        return 1;
    }
    put_flow(kind, flow, out);
    STREAM_SIZE
}

// The records of the first so many streams, one after the other, and how many bytes they take.
pub fn put_records(count: usize, streams: [Entry; MAX_STREAMS], out: &mut [u8]) -> usize
    requires { (count ≤ max_streams) × (max_streams * stream_size ≤ length out.old) }
    ensures { Put (records_of (take count streams)) out.old out.new result }
{
    let mut at: usize = 0;
    for i in 0..count {
        let e = streams[i];
        at += put_record(e.class, e.flow, &mut out[at..]);
    }
    at
}

// The kind of the total, the office and the sheet's number.
fn put_number(office: u8, number: u32, out: &mut [u8])
    requires { total_size ≤ length out.old }
    ensures { out.new ≡ over (total_kind ∷ office ∷ put_be 4 number) out.old }
{
    num_bytes::put_u8(TOTAL, out);
    num_bytes::put_u8(office, &mut out[1..]);
    num_bytes::put_u32(number, &mut out[2..]);
}

// What stands behind them: cost, degrees and verdict.
fn put_cost(cost: u64, degrees: u8, verdict: u8, out: &mut [u8])
    requires { 10 ≤ length out.old }
    ensures { out.new ≡ over (put_be 8 cost ++ (degrees ∷ verdict ∷ [])) out.old }
{
    num_bytes::put_u64(cost, out);
    num_bytes::put_u8(degrees, &mut out[8..]);
    num_bytes::put_u8(verdict, &mut out[9..]);
}

// The total.
pub fn put_total(office: u8, number: u32, cost: u64, degrees: u8, verdict: u8, out: &mut [u8])
    requires { total_size ≤ length out.old }
    ensures { out.new ≡ over (total_of office number cost degrees verdict) out.old }
{
    put_number(office, number, out);
    put_cost(cost, degrees, verdict, &mut out[6..]);
}

// An office's sheet of a balance with so many streams, under a number, and how many bytes it takes.
pub fn put_sheet(office: u8, count: usize, number: u32, b: Balance, out: &mut [u8]) -> usize
    requires { (count ≤ max_streams) × (least_slice ≤ length out.old) }
    ensures { Put (sheet_bytes office count number b) out.old out.new result }
{
    let at = put_records(count, b.streams, out);
    put_total(office, number, b.cost, b.degrees, b.verdict, &mut out[at..]);
    at + TOTAL_SIZE
}

// A refusal counts nothing, hands the last sheet numbers back and marks no place.
pub fn refused(number: u8, lasts: [u32; OFFICES]) -> Sheet
    ensures { result ≡ record { number = number; written = 0; lasts = lasts; marked = unmarked } }
{
    Sheet {
        number,
        written: 0,
        lasts,
        marked: [false; PLACES],
    }
}

// Refusal 19 marks an overfull set.
fn overfilled(lasts: [u32; OFFICES], marked: [bool; PLACES]) -> Sheet
    ensures { result ≡ record { number = 19; written = 0; lasts = lasts; marked = marked } }
{
    Sheet {
        number: Refusal::NoFlow.number(),
        written: 0,
        lasts,
        marked,
    }
}

// An office's last sheet number; 0 of one above 7, which has none.
fn last_of(office: u8, lasts: [u32; OFFICES]) -> u32
    ensures { result ≡ counter_of office lasts }
{
    let at = office as usize;
    if at < OFFICES {
        return lasts[at];
    }
    0
}

// The last sheet numbers when the office has drawn one more: no other office's is touched.
fn raise(office: u8, lasts: [u32; OFFICES]) -> [u32; OFFICES]
    requires { (office < offices) × (counter_of office lasts < top_sheet) }
    ensures { result ≡ raised office lasts }
{
    let mut after = lasts;
    let at = office as usize;
    after[at] = lasts[at] + 1;
    after
}

// An office above 7.
fn check_office(office: u8) -> Result<(), Refusal>
    ensures { fault_in result ≡ refuse_if (leb offices office) 22 }
{
    if OFFICES <= office as usize {
        return Err(Refusal::NoOffice);
    }
    Ok(())
}

// No sheet number left of the office's.
fn check_number(office: u8, lasts: [u32; OFFICES]) -> Result<(), Refusal>
    ensures { fault_in result ≡ refuse_if (eqb (counter_of office lasts) top_sheet) 2 }
{
    if last_of(office, lasts) == TOP_SHEET {
        return Err(Refusal::NoSheetNumber);
    }
    Ok(())
}

// The refusals of the call itself.
pub fn check_call(office: u8, lasts: [u32; OFFICES], sheet: &[u8]) -> Result<(), Refusal>
    ensures { fault_in result ≡ call_fault office lasts sheet.now }
{
    if sheet.len() < LEAST_SLICE {
        return Err(Refusal::SliceTooShort);
    }
    check_office(office)?;
    check_number(office, lasts)
}

// The sheet of an outcome under the office's next number; or 19, which leaves slice and counters as they were.
pub fn draw(
    count: usize,
    outcome: Outcome,
    office: u8,
    lasts: [u32; OFFICES],
    sheet: &mut [u8],
) -> Sheet
    requires { (count ≤ max_streams) × (call_fault office lasts sheet.old ≡ 0) }
    ensures { DrawnOf count outcome office lasts sheet.old sheet.new result }
{
    if !outcome.found {
        return overfilled(lasts, outcome.marked);
    }
    let next = last_of(office, lasts) + 1;
    let written = put_sheet(office, count, next, outcome.balance, sheet);
    let after = raise(office, lasts);
    let marked = [false; PLACES];
    Sheet {
        number: 0,
        written,
        lasts: after,
        marked,
    }
}
