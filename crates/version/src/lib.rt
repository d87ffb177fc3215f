// The version of the part.
#![tactic(auto)]

ghost use Rattle.std.specs.Prelude.{◌≡◌};
ghost use Rattle.version.specs.Version.{version};

pub const MAJOR: u32 = 1;

pub const MINOR: u32 = 1;

pub const PATCH: u32 = 0;

// The version as one number: 10,000 is 1.0.0.
pub fn version_number() -> u32
    ensures { result ≡ version }
{
    10_000 * MAJOR + 100 * MINOR + PATCH
}
