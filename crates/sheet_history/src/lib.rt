// The offices' last sheet numbers at the change, and what comes of them over any calls: definitions with their laws.
#![tactic(auto)]

ghost use Rattle.std.specs.Prelude.{◌≡◌};
ghost use Rattle.sheet_def.specs.Counters.{offices_from};

use sheet_def::kinds::OFFICES;

// The last number of the time before there were offices passes to office 0; the other seven begin at 0.
pub fn offices_from(last: u32) -> [u32; OFFICES]
    ensures { result ≡ offices_from last }
{
    [last, 0, 0, 0, 0, 0, 0, 0]
}
