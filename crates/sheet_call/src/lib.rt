// The sheet call, and the balance of a plant that it draws.
#![tactic(auto)]

ghost use Rattle.std.specs.Prelude.{◌≡◌, false};
ghost use Rattle.plant_def.specs.Within.{Accepted};
ghost use Rattle.plant_def.specs.Says.{plant_of};
ghost use Rattle.sheet_def.specs.Balances.{OutcomeSays};
ghost use Rattle.sheet_def.specs.Says.{SheetSays};

use plant_def::Plant;
use plant_def::limits::{MAX_STREAMS, PLACES};
use sheet_def::blanks::blank_entry;
use sheet_def::kinds::OFFICES;
use sheet_def::{Balance, Outcome, Sheet};
use sheet_entries::balance_by;
use sheet_write::{check_call, draw, refused};
use solve_arcs::{ARCS, NONE, ROWS};
use solve_arcs_fill::lay;

// No balance, and the overfull set.
fn overfilled(marked: [bool; PLACES]) -> Outcome
    ensures { (result.found ≡ false) × (result.marked ≡ marked) }
{
    let none = blank_entry();
    Outcome {
        found: false,
        balance: Balance {
            streams: [none; MAX_STREAMS],
            cost: 0,
            degrees: 0,
            verdict: 0,
        },
        marked,
    }
}

// The balance of a plant, or an overfull set of its places.
pub fn balance_of(p: Plant) -> Outcome
    requires { Accepted p }
    ensures { OutcomeSays (plant_of p) result }
{
    let mut arcs = [NONE as u8; ARCS];
    let mut rows = [0u64; ROWS];
    lay(p.streams, p.count as usize, &mut arcs, &mut rows);
    let bridges = flow_bridges::bridges_of(&arcs, &rows);
    let solved = solve_call::solve(p.units, bridges.labels, &arcs, &rows);
    let marked = solved.marked;
    if !solved.found {
        return overfilled(marked);
    }
    let balance = balance_by(p.units, &arcs, &rows, bridges, solved);
    Outcome {
        found: true,
        balance,
        marked,
    }
}

// The balance sheet of a plant file, drawn for an office under its next number; or a refusal that leaves slice and counters as they
// were.
pub fn balance_plant(file: &[u8], office: u8, lasts: [u32; OFFICES], sheet: &mut [u8]) -> Sheet
    ensures { SheetSays file.now office lasts sheet.old sheet.new result }
{
    match check_call(office, lasts, sheet) {
        Ok(()) => {}
        Err(fault) => return refused(fault.number(), lasts),
    }
    let plant = match plant_read::read_plant(file) {
        Ok(plant) => plant,
        Err(e) => return refused(e.number(), lasts),
    };
    let outcome = balance_of(plant);
    draw(plant.count as usize, outcome, office, lasts, sheet)
}
