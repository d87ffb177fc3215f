// The archive: the calls of `wengeludo`, exported for programs in C and Rust under the same names. Each calls the function of its
// name, and has its clauses; what each is for is said there.
#![tactic(auto)]

ghost use Rattle.std.specs.Prelude.{◌≡◌};
ghost use Rattle.transmitter_def.specs.Says.{TranslateSays};
ghost use Rattle.ranged_def.specs.Moves.{ToSays, FromSays};
ghost use Rattle.survey_answers.specs.Lent.{SurveyFound};
ghost use Rattle.foreign_def.specs.Says.{CheckSays};
ghost use Rattle.foreign_numbers.specs.Lent.{NumbersFound};
ghost use Rattle.purchase_call.specs.Lent.{BuyFound};
ghost use Rattle.visit_call.specs.Lent.{VisitsFound};
ghost use Rattle.certify_def.specs.Says.{lent_slices, FlowSays};
ghost use Rattle.charge_call.specs.Lent.{ChargesFound};
ghost use Rattle.version.specs.Version.{version};
ghost use Rattle.wengeludo.specs.Calls.{SheetCall, WriteCall, ReadPlantCall, ReadCall};

#[unsafe(no_mangle)]
pub extern "C" fn wengeludo_version() -> u32
    ensures { result ≡ version }
{
    wengeludo::wengeludo_version()
}

#[unsafe(no_mangle)]
pub extern "C" fn wengeludo_balance_plant(
    file: &[u8],
    office: u8,
    lasts: &mut [u32],
    sheet: &mut [u8],
    written: &mut usize,
    marked: &mut u64,
) -> u8
    ensures { SheetCall file office lasts sheet written marked result }
{
    wengeludo::wengeludo_balance_plant(file, office, lasts, sheet, written, marked)
}

#[unsafe(no_mangle)]
pub extern "C" fn wengeludo_write_plant(
    units: u8,
    count: usize,
    from: &[u8],
    to: &[u8],
    metered: &[u8],
    weight: &[u16],
    reading: &[i32],
    ranged: &[u8],
    low: &[i32],
    high: &[i32],
    file: &mut [u8],
    written: &mut usize,
) -> u8
    ensures { WriteCall units count from to metered weight reading ranged low high file written result }
{
    wengeludo::wengeludo_write_plant(
        units, count, from, to, metered, weight, reading, ranged, low, high, file, written,
    )
}

#[unsafe(no_mangle)]
pub extern "C" fn wengeludo_read_plant(
    file: &[u8],
    units: &mut u8,
    count: &mut usize,
    from: &mut [u8],
    to: &mut [u8],
    metered: &mut [u8],
    weight: &mut [u16],
    reading: &mut [i32],
    ranged: &mut [u8],
    low: &mut [i32],
    high: &mut [i32],
) -> u8
    ensures { ReadPlantCall file units count from to metered weight reading ranged low high result }
{
    wengeludo::wengeludo_read_plant(
        file, units, count, from, to, metered, weight, reading, ranged, low, high,
    )
}

#[unsafe(no_mangle)]
pub extern "C" fn wengeludo_read_sheet(
    bytes: &[u8],
    kinds: &mut [u8],
    flows: &mut [i64],
    count: &mut usize,
    kind: &mut u8,
    office: &mut u8,
    sheet: &mut u32,
    cost: &mut u64,
    degrees: &mut u8,
    verdict: &mut u8,
) -> u8
    ensures { ReadCall bytes kinds flows count kind office sheet cost degrees verdict result }
{
    wengeludo::wengeludo_read_sheet(
        bytes, kinds, flows, count, kind, office, sheet, cost, degrees, verdict,
    )
}

#[unsafe(no_mangle)]
pub extern "C" fn wengeludo_plant_from_transmitter(
    file: &[u8],
    plant: &mut [u8],
    written: &mut usize,
) -> u8
    ensures { TranslateSays file.now plant.old plant.new (record { number = result; written = written.new }) }
{
    wengeludo::wengeludo_plant_from_transmitter(file, plant, written)
}

#[unsafe(no_mangle)]
pub extern "C" fn wengeludo_to_ranged(file: &[u8], out: &mut [u8], written: &mut usize) -> u8
    ensures { ToSays file.now out.old out.new (record { number = result; written = written.new }) }
{
    wengeludo::wengeludo_to_ranged(file, out, written)
}

#[unsafe(no_mangle)]
pub extern "C" fn wengeludo_from_ranged(file: &[u8], out: &mut [u8], written: &mut usize) -> u8
    ensures { FromSays file.now out.old out.new (record { number = result; written = written.new }) }
{
    wengeludo::wengeludo_from_ranged(file, out, written)
}

#[unsafe(no_mangle)]
pub extern "C" fn wengeludo_meters_to_buy(
    file: &[u8],
    prices: &[u32],
    streams: &mut [u8],
    count: &mut usize,
    price: &mut u32,
) -> u8
    ensures { BuyFound file.now prices.now streams.old
        (result, count.new, price.new, streams.new) }
{
    wengeludo::wengeludo_meters_to_buy(file, prices, streams, count, price)
}

#[unsafe(no_mangle)]
pub extern "C" fn wengeludo_layouts_of(file: &[u8], counts: &mut [u16], count: &mut usize) -> u8
    ensures { SurveyFound file.now counts.old (result, count.new, counts.new) }
{
    wengeludo::wengeludo_layouts_of(file, counts, count)
}

#[unsafe(no_mangle)]
pub extern "C" fn wengeludo_visits(
    file: &[u8],
    streams: &mut [u8],
    costs: &mut [u64],
    count: &mut usize,
) -> u8
    ensures { VisitsFound file.now streams.old costs.old
        (result, count.new, streams.new, costs.new) }
{
    wengeludo::wengeludo_visits(file, streams, costs, count)
}

#[unsafe(no_mangle)]
pub extern "C" fn wengeludo_charges(
    file: &[u8],
    rates: &[u16],
    streams: &mut [u8],
    charges: &mut [i64],
    count: &mut usize,
    bill: &mut i64,
) -> u8
    ensures { ChargesFound file.now rates.now streams.old charges.old
        (result, count.new, bill.new, streams.new, charges.new) }
{
    wengeludo::wengeludo_charges(file, rates, streams, charges, count, bill)
}

#[unsafe(no_mangle)]
pub extern "C" fn wengeludo_check_sheet(plant: &[u8], sheet: &[u8], numbers: &[i64]) -> u8
    ensures { CheckSays plant.now sheet.now numbers.now result }
{
    wengeludo::wengeludo_check_sheet(plant, sheet, numbers)
}

#[unsafe(no_mangle)]
pub extern "C" fn wengeludo_place_numbers(file: &[u8], numbers: &mut [i64], count: &mut usize) -> u8
    ensures { NumbersFound file.now numbers.old (result, count.new, numbers.new) }
{
    wengeludo::wengeludo_place_numbers(file, numbers, count)
}

#[unsafe(no_mangle)]
pub extern "C" fn wengeludo_check_flow(
    units: u8,
    count: usize,
    from: &[u8],
    to: &[u8],
    metered: &[u8],
    weight: &[u64],
    reading: &[i64],
    ranged: &[u8],
    low: &[i64],
    high: &[i64],
    flow: &[i64],
    numbers: &[i64],
) -> u8
    ensures { FlowSays units count (lent_slices from to metered weight reading ranged low high) flow.now numbers.now result }
{
    wengeludo::wengeludo_check_flow(
        units, count, from, to, metered, weight, reading, ranged, low, high, flow, numbers,
    )
}
