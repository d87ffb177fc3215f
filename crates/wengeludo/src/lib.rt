// The calls for programs in C and Rust, as functions on numbers and slices of numbers; wengeludo_c makes the archive of them. They are
// the version, the sheet call, the plant writer, the plant reader, the sheet reader, the translator, the two moves, meters to buy, the
// survey, meters worth a visit, steam charges, the check of a sheet, numbers of the places and the check of a flow over wide numbers.
#![tactic(auto)]

ghost use Rattle.std.specs.Prelude.{◌≡◌};
ghost use Rattle.plant_def.specs.Views.{done_as};
ghost use Rattle.transmitter_def.specs.Says.{TranslateSays};
ghost use Rattle.ranged_def.specs.Moves.{ToSays, FromSays};
ghost use Rattle.survey_answers.specs.Lent.{SurveyFound};
ghost use Rattle.foreign_def.specs.Says.{CheckSays};
ghost use Rattle.foreign_numbers.specs.Lent.{NumbersFound};
ghost use Rattle.purchase_call.specs.Lent.{BuyFound};
ghost use Rattle.visit_call.specs.Lent.{VisitsFound};
ghost use Rattle.certify_def.specs.Says.{lent_slices, FlowSays};
ghost use Rattle.charge_call.specs.Lent.{ChargesFound};
ghost use Rattle.version.specs.Version.{version};
ghost use Rattle.wengeludo.specs.Calls.{SheetCall, WriteCall, ReadPlantCall, ReadCall};

use plant_def::Plant;
use plant_def::refusal::{Refusal, check_number};
use sheet_lent::balance_lent;

// The version as one number: 10,000 is 1.0.0.
pub fn wengeludo_version() -> u32
    ensures { result ≡ version }
{
    version::version_number()
}

// The sheet call: the file's sheet in the slice, drawn for an office, its bytes counted and the office's last number one higher; or
// a refusal number, none counted, slice and numbers as they were. Fewer than eight last numbers are refused as 1; those past the
// eighth stay as they are. With refusal 19 bit u of the marks is set where place u is in an overfull set; else no bit is.
pub fn wengeludo_balance_plant(
    file: &[u8],
    office: u8,
    lasts: &mut [u32],
    sheet: &mut [u8],
    written: &mut usize,
    marked: &mut u64,
) -> u8
    ensures { SheetCall file office lasts sheet written marked result }
{
    let drawn = balance_lent(file, office, lasts, sheet);
    *written = drawn.written;
    *marked = drawn.bits;
    drawn.number
}

// The plant writer: the plant's file in the slice, its bytes counted; or a refusal number, none counted, the slice as it was.
// The streams' parts are handed over in eight slices, stream k + 1 at place k of each. A stream that some slice does not
// reach is empty, from 0 to 0, and is refused when its turn comes.
pub fn wengeludo_write_plant(
    units: u8,
    count: usize,
    from: &[u8],
    to: &[u8],
    metered: &[u8],
    weight: &[u16],
    reading: &[i32],
    ranged: &[u8],
    low: &[i32],
    high: &[i32],
    file: &mut [u8],
    written: &mut usize,
) -> u8
    ensures { WriteCall units count from to metered weight reading ranged low high file written result }
{
    let n = plant_parts::reached(
        plant_parts::meters_reach(from, to, metered, weight, reading),
        plant_parts::ranges_reach(ranged, low, high),
    );
    let meters = plant_parts::meters_gathered(n, from, to, metered, weight, reading);
    let streams = plant_parts::ranges_gathered(n, meters, ranged, low, high);
    let plant = Plant {
        units,
        count: plant_parts::count_byte(count),
        streams,
    };
    match plant_write::write_plant(&plant, file) {
        Ok(size) => {
            *written = size;
            0
        }
        Err(e) => {
            *written = 0;
            e.number()
        }
    }
}

// The plant reader: a plant file's units, how many streams it lists, and their parts at the front of eight slices, stream k + 1 at place k
// of each, as the plant writer takes them; or a refusal number, zeros, and the slices as they were. A slice that does not hold as many as
// there may be is refused as 1, before the file is read.
pub fn wengeludo_read_plant(
    file: &[u8],
    units: &mut u8,
    count: &mut usize,
    from: &mut [u8],
    to: &mut [u8],
    metered: &mut [u8],
    weight: &mut [u16],
    reading: &mut [i32],
    ranged: &mut [u8],
    low: &mut [i32],
    high: &mut [i32],
) -> u8
    ensures { ReadPlantCall file units count from to metered weight reading ranged low high result }
{
    let reach = plant_parts::reached(
        plant_parts::meters_reach(from, to, metered, weight, reading),
        plant_parts::ranges_reach(ranged, low, high),
    );
    let plant = match plant_lent::read_lent(file, reach) {
        Ok(plant) => plant,
        Err(e) => {
            let number = e.number();
            *units = 0;
            *count = 0;
            return number;
        }
    };
    let listed = plant.count as usize;
    plant_lent::put_ends(listed, plant.streams, from, to);
    plant_lent::put_meters(listed, plant.streams, metered, weight, reading);
    plant_lent::put_ranges(listed, plant.streams, ranged, low, high);
    *units = plant.units;
    *count = listed;
    0
}

// The sheet reader: the kinds of a sheet's stream records, which tell the classes, and the flows at the front of two slices, how
// many they are, and the total with its kind and its office, 0 where it shows none; or a refusal number, zeros, and the slices as
// they were. A slice that does not hold as many as there may be is refused as 1, before the sheet is read.
pub fn wengeludo_read_sheet(
    bytes: &[u8],
    kinds: &mut [u8],
    flows: &mut [i64],
    count: &mut usize,
    kind: &mut u8,
    office: &mut u8,
    sheet: &mut u32,
    cost: &mut u64,
    degrees: &mut u8,
    verdict: &mut u8,
) -> u8
    ensures { ReadCall bytes kinds flows count kind office sheet cost degrees verdict result }
{
    match sheet_parts::read_lent(bytes, kinds.len(), flows.len()) {
        Ok(read) => {
            *count = read.count as usize;
            sheet_parts::put_kinds(*count, read.streams, kinds);
            sheet_parts::put_flows(*count, read.streams, flows);
            *kind = read.total.kind;
            *office = read.total.office;
            *sheet = read.total.sheet;
            *cost = read.total.cost;
            *degrees = read.total.degrees;
            *verdict = read.total.verdict;
            0
        }
        Err(refusal) => {
            *count = 0;
            *kind = 0;
            *office = 0;
            *sheet = 0;
            *cost = 0;
            *degrees = 0;
            *verdict = 0;
            refusal.number()
        }
    }
}

// What a writer hands over: 0 and the bytes counted, or the refusal's number and none counted.
fn counted(done: Result<usize, Refusal>, written: &mut usize) -> u8
    ensures { record { number = result; written = written.new } ≡ done_as done }
{
    let (number, size) = match done {
        Ok(size) => (0, size),
        Err(refusal) => (refusal.number(), 0),
    };
    *written = size;
    number
}

// The translator: the plant file that a transmitter file becomes in the slice, its bytes counted; or a refusal number, none
// counted, the slice as it was.
pub fn wengeludo_plant_from_transmitter(file: &[u8], plant: &mut [u8], written: &mut usize) -> u8
    ensures { TranslateSays file.now plant.old plant.new (record { number = result; written = written.new }) }
{
    counted(
        transmitter_translate::plant_from_transmitter(file, plant),
        written,
    )
}

// Moves a plant file to the ranged form: the moved file in the slice, its bytes counted; or a refusal number, none counted, the
// slice as it was.
pub fn wengeludo_to_ranged(file: &[u8], out: &mut [u8], written: &mut usize) -> u8
    ensures { ToSays file.now out.old out.new (record { number = result; written = written.new }) }
{
    counted(ranged_call::to_ranged(file, out), written)
}

// Moves a plant file home.
pub fn wengeludo_from_ranged(file: &[u8], out: &mut [u8], written: &mut usize) -> u8
    ensures { FromSays file.now out.old out.new (record { number = result; written = written.new }) }
{
    counted(ranged_call::from_ranged(file, out), written)
}

// Meters to buy: the numbers of the streams to be metered at the front of a slice, how many they are, and what they cost
// together; or a refusal number, zeros, and the slice as it was. A slice that does not hold as many as there may be is refused
// as 1, before the file is read.
pub fn wengeludo_meters_to_buy(
    file: &[u8],
    prices: &[u32],
    streams: &mut [u8],
    count: &mut usize,
    price: &mut u32,
) -> u8
    ensures { BuyFound file.now prices.now streams.old
        (result, count.new, price.new, streams.new) }
{
    let handed = purchase_call::lent::buy_into(file, prices, streams);
    *count = handed.count;
    *price = handed.price;
    handed.number
}

// The survey of meter layouts: for each k from 0 to the number of streams, how many choices of k metered streams leave none
// withheld, at the front of the slice, and how many streams there are; or a refusal number, 0, and the slice as it was. A slice
// that does not hold 13 counts is refused as 1, before the file is read.
pub fn wengeludo_layouts_of(file: &[u8], counts: &mut [u16], count: &mut usize) -> u8
    ensures { SurveyFound file.now counts.old (result, count.new, counts.new) }
{
    let lent = survey_answers::layouts_lent(file, counts);
    *count = lent.count;
    lent.number
}

// Meters worth a visit: for every A stream the least cost with that stream, and its range, made unmetered, listed by cost, equals by
// number: the streams' numbers at the front of one slice, the costs at the front of another, and how many they are; or a refusal
// number, 0, and the slices as they were. A slice that does not hold as many as there may be is refused as 1, before the file is read.
pub fn wengeludo_visits(file: &[u8], streams: &mut [u8], costs: &mut [u64], count: &mut usize) -> u8
    ensures { VisitsFound file.now streams.old costs.old
        (result, count.new, streams.new, costs.new) }
{
    let handed = visit_call::visits_into(file, streams, costs);
    *count = handed.count;
    handed.number
}

// Steam charges: the numbers of the streams to the outside and what each is charged for one hour, in cents, at the front of two
// slices, how many they are, and the bill; or a refusal number, zeros, and the slices as they were. A slice that does not hold as
// many as there may be is refused as 1, before the file is read.
pub fn wengeludo_charges(
    file: &[u8],
    rates: &[u16],
    streams: &mut [u8],
    charges: &mut [i64],
    count: &mut usize,
    bill: &mut i64,
) -> u8
    ensures { ChargesFound file.now rates.now streams.old charges.old
        (result, count.new, bill.new, streams.new, charges.new) }
{
    let handed = charge_call::charges_into(file, rates, streams, charges);
    let total = handed.bill;
    *count = handed.count;
    *bill = total;
    handed.number
}

// The check of a plant, a sheet drawn up elsewhere and one number for each place: the plant reader's refusals, then the sheet
// reader's, then 26 where any rule is broken; 0 where the sheet passes, and then its flows have least cost.
pub fn wengeludo_check_sheet(plant: &[u8], sheet: &[u8], numbers: &[i64]) -> u8
    ensures { CheckSays plant.now sheet.now numbers.now result }
{
    foreign_call::check_sheet(plant, sheet, numbers)
}

// Numbers of the places, with which each sheet of the file passes the check, at the front of the slice, and how many they are; or a
// refusal number, 0, and the slice as it was. A slice that does not hold 33 numbers is refused as 1, before the file is read.
pub fn wengeludo_place_numbers(file: &[u8], numbers: &mut [i64], count: &mut usize) -> u8
    ensures { NumbersFound file.now numbers.old (result, count.new, numbers.new) }
{
    let lent = foreign_numbers::numbers_lent(file, numbers);
    *count = lent.count;
    lent.number
}

// The check of a flow found elsewhere, with one number for each place, of a plant of wide numbers whose parts are handed over in eight
// slices, stream k + 1 at place k of each: a slice too short for the count (of the numbers: for the places) 1, then the faults of the
// parts, then 26 where any rule is broken; 0 where the flow passes, and then it has least cost.
pub fn wengeludo_check_flow(
    units: u8,
    count: usize,
    from: &[u8],
    to: &[u8],
    metered: &[u8],
    weight: &[u64],
    reading: &[i64],
    ranged: &[u8],
    low: &[i64],
    high: &[i64],
    flow: &[i64],
    numbers: &[i64],
) -> u8
    ensures { FlowSays units count (lent_slices from to metered weight reading ranged low high) flow.now numbers.now result }
{
    let first = from
        .len()
        .min(to.len())
        .min(metered.len().min(weight.len()));
    let last = reading
        .len()
        .min(ranged.len())
        .min(low.len().min(high.len()));
    let reach = first.min(last);
    let call = certify_call::check_call(units, count, reach, flow.len(), numbers.len());
    if let Err(refusal) = call {
        return refusal.number();
    }
    let meters = certify_call::meters_gathered(count, from, to, metered, weight, reading);
    let streams = certify_call::ranges_gathered(count, meters, ranged, low, high);
    check_number(certify_call::check_flow(units, count, streams, flow, numbers))
}
