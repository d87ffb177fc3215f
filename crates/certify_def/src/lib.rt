// A flow found elsewhere, for a plant of wide numbers: when the numbers of the places show that it has least cost.
#![tactic(auto)]

// A stream of wide numbers, as the slices hand it over.
// Stays flags beside values: `wengeludo_check_flow` takes them so from C, and `plainly` reads them.
#[derive(Clone, Copy, Default)]
pub struct WideStream {
    pub from: u8,
    pub to: u8,
    pub metered: bool,
    pub ranged: bool,
    pub weight: u64,
    pub reading: i64,
    pub low: i64,
    pub high: i64,
}

// A weight is from 1 to this.
pub const MAX_WIDE_WEIGHT: u64 = 1_099_511_627_776;

// A reading is from minus this to this; so are a flow and the number of a place with their limits.
pub const MAX_WIDE_READING: u64 = 1_099_511_627_776;

pub const MAX_WIDE_FLOW: u64 = 36_028_797_018_963_968;

pub const MAX_WIDE_NUMBER: u64 = 2_305_843_009_213_693_952;
