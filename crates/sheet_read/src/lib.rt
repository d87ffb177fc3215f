// The sheet reader: stream records, then the total, each by its fields, with refusals 13 to 15.
#![tactic(auto)]

ghost use Rattle.std.specs.Prelude.{◌≡◌, ◌||◌, leb, ltb, length, ◌≤◌, ◌-◌, drop, get_or};
ghost use Rattle.num_bytes.specs.Choice.{refuse_if, first_of};
ghost use Rattle.plant_def.specs.Limits.{max_streams};
ghost use Rattle.plant_def.specs.Refused.{fault_in};
ghost use Rattle.sheet_def.specs.Kept.{blank, verdict_fits, total_fault, after_fault, shown_in, stream_record, body_in};
ghost use Rattle.sheet_def.specs.Kept.{total_record, record_at, ReadSays};
ghost use Rattle.sheet_def.specs.Totals.{stream_size, body_size};
ghost use Rattle.sheet_def.specs.Views.{sheet_record_as, sheet_as};

use flow_def::Class;
use plant_def::limits::{MAX_STREAMS, MAX_UNITS};
use plant_def::refusal::Refusal;
use sheet_def::blanks::blank_entry;
pub use sheet_def::kinds::kind_of;
use sheet_def::kinds::{
    ADJUSTED, AS_READ, BODY_SIZE, GIVEN, OFFICES, PLAIN, PLAIN_SIZE, STREAM_SIZE, TOTAL,
    TOTAL_SIZE, WITHHELD,
};
use sheet_def::{Entry, SheetRead, SheetRecord, Total};

// A record or a total of this size: there whole, or cut.
pub fn check_whole(size: usize, s: &[u8]) -> Result<(), Refusal>
    ensures { fault_in result ≡ refuse_if (ltb (length s.now) size) 13 }
{
    if s.len() < size {
        return Err(Refusal::SheetRecord);
    }
    Ok(())
}

// A stream record of so many bytes, after so many streams: there is no room for it, or it is cut.
pub fn check_room(size: usize, count: u8, s: &[u8]) -> Result<(), Refusal>
    ensures { fault_in result ≡ refuse_if (leb max_streams count || ltb (length s.now) size) 13 }
{
    if MAX_STREAMS <= count as usize {
        return Err(Refusal::SheetRecord);
    }
    check_whole(size, s)
}

// Verdict 2 exactly at degrees 0, else 0, 1 or 3.
fn verdict_fits(degrees: u8, verdict: u8) -> bool
    ensures { result ≡ verdict_fits degrees verdict }
{
    if degrees == 0 {
        return verdict == 2;
    }
    if verdict == 3 {
        return true;
    }
    verdict < 2
}

// A field that is not allowed.
fn check_fields(t: Total) -> Result<(), Refusal>
    ensures { fault_in result ≡ total_fault t }
{
    if OFFICES <= t.office as usize {
        return Err(Refusal::SheetTotal);
    }
    if t.sheet == 0 {
        return Err(Refusal::SheetTotal);
    }
    if MAX_UNITS < t.degrees {
        return Err(Refusal::SheetTotal);
    }
    if verdict_fits(t.degrees, t.verdict) {
        return Ok(());
    }
    Err(Refusal::SheetTotal)
}

// Bytes after a total of this size.
fn check_after(size: usize, s: &[u8]) -> Result<(), Refusal>
    ensures { fault_in result ≡ after_fault size s.now }
{
    if s.len() == size {
        return Ok(());
    }
    Err(Refusal::AfterTotal)
}

// The fields of a total that is whole, then bytes after it.
pub fn check_rest(size: usize, t: Total, s: &[u8]) -> Result<(), Refusal>
    ensures { fault_in result ≡ first_of (total_fault t) (after_fault size s.now) }
{
    check_fields(t)?;
    check_after(size, s)
}

// A stream that shows a number.
fn read_shown(class: Class, count: u8, s: &[u8]) -> Result<SheetRecord, Refusal>
    ensures { sheet_record_as result ≡ stream_record stream_size (shown_in class s.now) count s.now }
{
    check_room(STREAM_SIZE, count, s)?;
    let flow = num_bytes::get_i64(&s[1..]);
    Ok(SheetRecord::Listed {
        entry: Entry { class, flow },
        size: STREAM_SIZE,
    })
}

// A withheld stream. Stays beside `read_shown`: one function for both has a size, a flow and a clause for each of the two.
fn read_blank(count: u8, s: &[u8]) -> Result<SheetRecord, Refusal>
    ensures { sheet_record_as result ≡ stream_record 1 blank count s.now }
{
    check_room(1, count, s)?;
    Ok(SheetRecord::Listed {
        entry: blank_entry(),
        size: 1,
    })
}

// What both totals end in.
fn body_in(kind: u8, office: u8, body: &[u8]) -> Total
    requires { body_size ≤ length body.now }
    ensures { result ≡ body_in kind office body.now }
{
    let sheet = num_bytes::get_u32(body);
    let cost = num_bytes::get_u64(&body[4..]);
    Total {
        kind,
        office,
        sheet,
        cost,
        degrees: body[12],
        verdict: body[13],
    }
}

// A total of this size, which is there whole: refused for its fields or for what follows it, or the end of the sheet.
fn end_with(size: usize, total: Total, s: &[u8]) -> Result<SheetRecord, Refusal>
    requires { size ≤ length s.now }
    ensures { sheet_record_as result ≡ total_record size total s.now }
{
    check_rest(size, total, s)?;
    Ok(SheetRecord::Ended(total))
}

// The office behind the kind of a total; 0 if the sheet ends before it.
fn office_in(s: &[u8]) -> u8
    ensures { result ≡ get_or s.now 1 0 }
{
    s.get(1).copied().unwrap_or(0)
}

// A total of this kind, size and office: cut, or there whole.
fn read_total(kind: u8, size: usize, office: u8, s: &[u8]) -> Result<SheetRecord, Refusal>
    requires { body_size ≤ size }
    ensures { sheet_record_as result ≡ total_record size (body_in kind office (drop (size - body_size) s.now)) s.now }
{
    check_whole(size, s)?;
    let total = body_in(kind, office, &s[size - BODY_SIZE..]);
    end_with(size, total, s)
}

// What stands where a record is due, after so many streams. The total of a sheet drawn before there were offices is that of office 0.
fn read_record(count: u8, s: &[u8]) -> Result<SheetRecord, Refusal>
    ensures { sheet_record_as result ≡ record_at count s.now }
{
    if s.is_empty() {
        return Err(Refusal::SheetRecord);
    }
    match s[0] {
        ADJUSTED => read_shown(Class::Adjusted, count, s),
        AS_READ => read_shown(Class::AsRead, count, s),
        GIVEN => read_shown(Class::Given, count, s),
        WITHHELD => read_blank(count, s),
        TOTAL => read_total(TOTAL, TOTAL_SIZE, office_in(s), s),
        PLAIN => read_total(PLAIN, PLAIN_SIZE, 0, s),
        _ => Err(Refusal::SheetRecord),
    }
}

// The streams and the total that a sheet lists, all of it read before any is used; or a refusal.
pub fn read_sheet(bytes: &[u8]) -> Result<SheetRead, Refusal>
    ensures { ReadSays bytes.now (sheet_as result) }
{
    let mut streams = [blank_entry(); MAX_STREAMS];
    let mut count: u8 = 0;
    let mut at: usize = 0;
    loop {
        match read_record(count, &bytes[at..])? {
            SheetRecord::Listed { entry, size } => {
                streams[count as usize] = entry;
                count += 1;
                at += size;
            }
            SheetRecord::Ended(total) => {
                return Ok(SheetRead {
                    count,
                    streams,
                    total,
                });
            }
        }
    }
}
