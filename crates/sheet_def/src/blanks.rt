// The entry of a withheld stream.
ghost use Rattle.std.specs.Prelude.{◌≡◌};
ghost use Rattle.sheet_def.specs.Kept.{blank};

use crate::Entry;
use flow_def::Class;

// A withheld stream shows no flow.
pub fn blank_entry() -> Entry
    ensures { result ≡ blank }
{
    Entry {
        class: Class::Withheld,
        flow: 0,
    }
}
