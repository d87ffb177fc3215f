// Meters worth a visit: the call, and the same in two lent slices.
#![tactic(auto)]

ghost use Rattle.std.specs.Prelude.{◌≡◌, ◌≤◌};
ghost use Rattle.plant_def.specs.Limits.{max_streams};
ghost use Rattle.num_lent.specs.Made.{Made};
ghost use Rattle.visit_def.specs.Says.{no_visits, VisitsSays};
ghost use Rattle.visit_def.specs.Views.{visits_as};
ghost use Rattle.visit_call.specs.Lent.{VisitsFound};

use num_lent::{put_bytes, put_words};
use plant_def::limits::MAX_STREAMS;
use plant_def::refusal::Refusal;
use solve_arcs::{ARCS, NONE, ROWS};
use solve_arcs_fill::lay;
use visit_costs::{adjusted_of, costs_without};
use visit_def::Visits;
use visit_order::list_by;

// For every A stream of a plant file the least cost with that stream, and its range, made unmetered; listed by cost, equals by number.
pub fn visits_of(file: &[u8]) -> Result<Visits, Refusal>
    ensures { VisitsSays file.now (visits_as result) }
{
    let plant = plant_read::read_plant(file)?;
    let streams = plant.streams;
    let count = plant.count as usize;
    let mut arcs = [NONE as u8; ARCS];
    let mut rows = [0u64; ROWS];
    lay(streams, count, &mut arcs, &mut rows);
    let bridges = flow_bridges::bridges_of(&arcs, &rows);
    let labels = bridges.labels;
    let solved = solve_call::solve(plant.units, labels, &arcs, &rows);
    if !solved.found {
        return Err(Refusal::NoFlow);
    }
    let classes = sheet_entries::classes_of(plant, bridges);
    let listed = adjusted_of(classes);
    let costs = costs_without(plant, listed);
    Ok(list_by(listed, costs, plant.count as usize))
}

// What is handed over beside the slices: the number, and how many streams are listed.
// Stays a number: what the exported call hands to C.
#[derive(Clone, Copy)]
pub struct Handed {
    pub number: u8,
    pub count: usize,
}

// A refusal hands over its number alone.
fn refused(number: u8) -> Handed
    ensures { result ≡ record { number = number; count = 0 } }
{
    Handed { number, count: 0 }
}

// The call, where slices with room for so many numbers and so many costs hold as many as there may be.
fn visits_lent(file: &[u8], numbers: usize, costs: usize) -> Result<Visits, Refusal>
    ensures { Made ((max_streams ≤ numbers) × (max_streams ≤ costs)) no_visits (VisitsSays file.now) (visits_as result) }
{
    if numbers < MAX_STREAMS {
        return Err(Refusal::SliceTooShort);
    }
    if costs < MAX_STREAMS {
        return Err(Refusal::SliceTooShort);
    }
    visits_of(file)
}

// The call with lent slices: the streams' numbers and their costs at the front, the rest as it was; or a refusal, and the slices as
// they were.
pub fn visits_into(file: &[u8], numbers: &mut [u8], costs: &mut [u64]) -> Handed
    ensures { VisitsFound file.now numbers.old costs.old
        (result.number, result.count, numbers.new, costs.new) }
{
    let visits = match visits_lent(file, numbers.len(), costs.len()) {
        Ok(visits) => visits,
        Err(refusal) => return refused(refusal.number()),
    };
    let count = visits.count as usize;
    put_bytes(count, visits.streams, numbers);
    put_words(count, visits.costs, costs);
    Handed { number: 0, count }
}
