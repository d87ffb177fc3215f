// The marks of a set that is overfull, as a plant has places.
ghost use Rattle.std.specs.Prelude.{◌≡◌, ◌&&◌};
ghost use Rattle.solve_def.specs.Model as M;

use plant_def::limits::PLACES;

// Of a set of places those of a plant of n units.
pub fn masked(marked: [bool; PLACES], n: u8) -> [bool; PLACES]
    ensures { result ≡ M.masked n marked }
{
    let mut own = [false; PLACES];
    for (u, own_u) in own.iter_mut().enumerate() {
        *own_u = marked[u] && u <= n as usize;
    }
    own
}
