// Refusals: why a file, a sheet, a plant or a call's other arguments are not taken. Each has its number, from 1 to 26.
ghost use Rattle.std.specs.Prelude.{◌≡◌};
ghost use Rattle.plant_def.specs.Refused.{refusal_number, fault_in};

#[derive(Clone, Copy, PartialEq, Eq)]
pub enum Refusal {
    // A slice is too short.
    SliceTooShort = 1,
    // The calling office's last sheet number is 4,294,967,295.
    NoSheetNumber = 2,
    // Bytes end where a record is due or inside a body.
    FileEnds = 3,
    // A kind is not allowed at this place.
    Kind = 4,
    // There is a 97th stream.
    TooManyStreams = 5,
    // The number of units is 0 or over 32.
    Units = 6,
    // From or to is above the number of units.
    Place = 7,
    // From equals to.
    SamePlace = 8,
    // A weight is 0 or over its limit.
    Weight = 9,
    // A reading is outside its limits.
    Reading = 10,
    // The end count differs from the streams read.
    EndCount = 11,
    // There are bytes after the end record.
    AfterEnd = 12,
    // A sheet's record is missing, cut short, a 97th or of a wrong kind.
    SheetRecord = 13,
    // A field of a sheet's total is not allowed.
    SheetTotal = 14,
    // There are bytes after a sheet's total.
    AfterTotal = 15,
    // A transmitter's value is not finite.
    Value = 16,
    // A transmitter's deviation is no finite number above 0.
    Deviation = 17,
    // Low is above high, or either is outside its limits.
    Range = 18,
    // No balanced flow lies within all ranges.
    NoFlow = 19,
    // A stream moves home, and its range is narrower than the widest.
    Narrower = 20,
    // Prices are not one for each unmetered stream, or one is not allowed.
    Prices = 21,
    // The office is above 7.
    NoOffice = 22,
    // There are more streams than the 12 of which layouts are surveyed.
    TooManyToSurvey = 23,
    // Rates are not one for each stream to the outside, or one is over 10,000.
    Rates = 24,
    // A stream to the outside is withheld, whatever its rate.
    ChargeWithheld = 25,
    // A sheet or a flow that is checked breaks a rule.
    RuleBroken = 26,
}

impl Refusal {
    // Its number.
    pub fn number(self) -> u8
        ensures { result ≡ refusal_number self }
    {
        self as u8
    }
}

// The number of a check: 0 where nothing is refused.
pub fn check_number(check: Result<(), Refusal>) -> u8
    ensures { result ≡ fault_in check }
{
    match check {
        Ok(()) => 0,
        Err(refusal) => refusal.number(),
    }
}
