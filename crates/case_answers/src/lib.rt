// Meters worth a visit, steam charges and the check of a sheet, as cases try them. A charge is 9 bytes: the number of its stream,
// its cents (8, two's complement).
#![tactic(auto)]

pub mod case_charges;
pub mod case_foreign;
pub mod case_visits;

pub use case_charges::charge;
pub use case_visits::call;
