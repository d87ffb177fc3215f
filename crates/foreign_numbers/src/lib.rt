// Numbers of the places of a plant file, with which its sheets pass the check: the call.
#![tactic(auto)]

ghost use Rattle.std.specs.Prelude.{◌≡◌, pos, ◌-ℤ◌, ◌≤◌};
ghost use Rattle.plant_def.specs.Limits.{max_units};
ghost use Rattle.plant_def.specs.Within.{Accepted};
ghost use Rattle.plant_def.specs.Says.{plant_of};
ghost use Rattle.solve_def.specs.Sizes.{potential_shift};
ghost use Rattle.solve_def.specs.SearchNeeds.{Potentials};
ghost use Rattle.solve_def.specs.Promise.{Right};
ghost use Rattle.foreign_def.specs.Numbers.{NumbersOf, NumbersSay};
ghost use Rattle.foreign_def.specs.Views.{numbers_as};
ghost use Rattle.foreign_def.specs.Test.{NumberedBy};
ghost use Rattle.foreign_numbers.specs.Lent.{NumbersFound};

use flow_def::Which;
use foreign_def::PlaceNumbers;
use plant_def::Plant;
use plant_def::limits::PLACES;
use plant_def::refusal::Refusal;
use solve_arcs::{ARCS, NONE, ROWS};
use solve_arcs_fill::lay;
use solve_def::Solved;

// A potential less that of the outside.
fn potential_from(potential: u64, outside: u64) -> i64
    requires { (potential ≤ potential_shift) × (outside ≤ potential_shift) }
    ensures { result ≡ pos potential -ℤ pos outside }
{
    potential as i64 - outside as i64
}

// The potentials of the places 0 to n, each less that of the outside; 0 past them.
fn potentials_from(units: u8, potentials: [u64; PLACES]) -> [i64; PLACES]
    requires { (units ≤ max_units) × Potentials potentials }
    ensures { NumberedBy units potentials result }
{
    let mut numbers = [0i64; PLACES];
    for u in 0..units as usize + 1 {
        numbers[u] = potential_from(potentials[u], potentials[0]);
    }
    numbers
}

// A number for each place, if a flow was found.
pub fn numbers_by(p: Plant, solved: Solved) -> Result<PlaceNumbers, Refusal>
    requires { Accepted p × Right p solved }
    ensures { NumbersOf (plant_of p) (numbers_as result) }
{
    if !solved.found {
        return Err(Refusal::NoFlow);
    }
    Ok(PlaceNumbers {
        count: p.units + 1,
        numbers: potentials_from(p.units, solved.potentials),
    })
}

// What is handed over beside the slice: the number, and how many places there are.
#[derive(Clone, Copy)]
pub struct Lent {
    pub number: u8,
    pub count: usize,
}

// A number for each place: the potentials by which the solver's flow is seen to have least cost, each less that of the outside; or a
// refusal.
pub fn place_numbers(file: &[u8]) -> Result<PlaceNumbers, Refusal>
    ensures { NumbersSay file.now (numbers_as result) }
{
    let plant = plant_read::read_plant(file)?;
    let mut arcs = [NONE as u8; ARCS];
    let mut rows = [0u64; ROWS];
    lay(plant.streams, plant.count as usize, &mut arcs, &mut rows);
    let labels = flow_components::group(&arcs, &rows, Which::Unmetered);
    let solved = solve_call::solve(plant.units, labels, &arcs, &rows);
    numbers_by(plant, solved)
}

// The numbers at the front of the slice, the rest of it as it was; or a refusal, and the slice as it was. A slice that does not hold
// as many as there may be is refused as 1, before the file is read.
// Stays a number: what the exported call hands to C.
#[tactic(auto, using(crate::proofs::Numbering::numbers_few))]
pub fn numbers_lent(file: &[u8], out: &mut [i64]) -> Lent
    ensures { NumbersFound file.now out.old (result.number, result.count, out.new) }
{
    if out.len() < PLACES {
        return Lent {
            number: 1,
            count: 0,
        };
    }
    match place_numbers(file) {
        Ok(made) => {
            let count = made.count as usize;
            out[..count].copy_from_slice(&made.numbers[..count]);
            Lent { number: 0, count }
        }
        Err(refusal) => Lent {
            number: refusal.number(),
            count: 0,
        },
    }
}
