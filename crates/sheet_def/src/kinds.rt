// The kinds of record on a sheet and their sizes, and the limits of a cost and of a call. Each is stated here and nowhere else in code.
ghost use Rattle.std.specs.Prelude.{◌≡◌};
ghost use Rattle.sheet_def.specs.Sheets.{kind_of};

use flow_def::Class;
use plant_def::limits::MAX_STREAMS;

pub const ADJUSTED: u8 = 0x11;

pub const AS_READ: u8 = 0x12;

pub const GIVEN: u8 = 0x13;

pub const WITHHELD: u8 = 0x14;

// The kind of record that a class has.
pub fn kind_of(class: Class) -> u8
    ensures { result ≡ kind_of class }
{
    match class {
        Class::Adjusted => ADJUSTED,
        Class::AsRead => AS_READ,
        Class::Given => GIVEN,
        Class::Withheld => WITHHELD,
    }
}

pub const TOTAL: u8 = 0x1E;

// The total of sheets drawn before there were offices. It is read, and written no more.
pub const PLAIN: u8 = 0x1F;

// The longest stream record, and the totals: with an office and without.
pub const STREAM_SIZE: usize = 9;

pub const TOTAL_SIZE: usize = 16;

pub const PLAIN_SIZE: usize = 15;

// What both totals end in: sheet number, cost, degrees and verdict.
pub const BODY_SIZE: usize = 14;

// The least slice that is taken.
pub const LEAST_SLICE: usize = MAX_STREAMS * STREAM_SIZE + TOTAL_SIZE;

// The greatest cost that is written; one above it is written as this. And the greatest number whose square is no more.
pub const TOP_COST: u64 = 18_446_744_073_709_551_615;

pub const TOP_ROOT: u64 = 4_294_967_295;

// The offices that draw sheets, 0 to 7, each with a last sheet number of its own.
pub const OFFICES: usize = 8;

// The last sheet number that there is.
pub const TOP_SHEET: u32 = 4_294_967_295;
