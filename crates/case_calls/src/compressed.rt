// The compression.
ghost use Rattle.std.specs.Prelude.{◌≡◌, length};
ghost use Rattle.solve_def.specs.SearchNeeds.{Potentials};

use case_files::cases::NO_CASE;
use plant_def::limits::PLACES;
use solve_compress::refloor;
use solve_def::sizes::POTENTIAL_SHIFT;

// A potential is held as a number below this.
const POTENTIALS: u64 = POTENTIAL_SHIFT + 1;

fn potentials_of(given: &[u8]) -> [u64; PLACES]
    requires { length given.now ≡ 264 }
    ensures { Potentials result }
{
    let mut potentials = [POTENTIAL_SHIFT; PLACES];
    for u in 0..PLACES {
        potentials[u] = num_bytes::get_u64(&given[8 * u..]) % POTENTIALS;
    }
    potentials
}

fn put_potentials(potentials: [u64; PLACES], out: &mut [u8])
    requires { length out.old ≡ 264 }
{
    for (u, p) in potentials.iter().enumerate() {
        num_bytes::put_u64(*p, &mut out[8 * u..]);
    }
}

// The compression: handed in the 33 potentials of the places as they are held, 8 bytes each; the slice, of 264 bytes, gets them after it; no
// count, no number.
pub fn compress_up(given: &[u8], out: &mut [u8]) -> u64 {
    if given.len() != 264 || out.len() != 264 {
        return NO_CASE;
    }
    let mut potentials = potentials_of(given);
    refloor(&mut potentials);
    put_potentials(potentials, out);
    0
}
