// The check of a plant, a sheet drawn up elsewhere and one number for each place.
#![tactic(auto)]

ghost use Rattle.std.specs.Prelude.{◌≡◌, ◌≤◌, length, take};
ghost use Rattle.plant_def.specs.Limits.{max_streams};
ghost use Rattle.plant_def.specs.Refused.{fault_in};
ghost use Rattle.plant_def.specs.Within.{Accepted};
ghost use Rattle.plant_def.specs.Says.{plant_of};
ghost use Rattle.flow_def.specs.Flows.{cost};
ghost use Rattle.flow_def.specs.Calls.{Grouped, classes_of};
ghost use Rattle.solve_arcs_fill.specs.Plants.{LaidOf};
ghost use Rattle.sheet_def.specs.Calls.{AllSmall};
ghost use Rattle.foreign_def.specs.Test.{total_fits, parts_in, passes};
ghost use Rattle.foreign_def.specs.Says.{CheckSays};

use flow_bridges::bridges_of;
use flow_def::Class;
use foreign_flows::{flows_fit, numbers_fit, records_fit, shown_flows};
use foreign_sets::nets_fit;
use plant_def::Plant;
use plant_def::limits::{MAX_STREAMS, PLACES};
use plant_def::refusal::{Refusal, check_number};
use sheet_cost::cost_of;
use sheet_def::{SheetRead, Total};
use sheet_entries::classes_of;
use solve_arcs::{ARCS, NONE, ROWS};
use solve_arcs_fill::lay;

// Degrees are ours, cost and verdict those of the flows shown.
fn total_fits(
    p: Plant,
    arcs: &[u8; ARCS],
    rows: &[u64; ROWS],
    labels: [u8; PLACES],
    classes: [Class; MAX_STREAMS],
    flows: [i64; MAX_STREAMS],
    total: Total,
) -> bool
    requires { LaidOf p arcs.now rows.now × Grouped p labels × (classes ≡ classes_of (plant_of p)) × AllSmall flows }
    ensures { result ≡ total_fits (plant_of p) (cost (plant_of p).streams (take p.count flows)) total }
{
    let degrees = flow_classes::degrees_of(arcs, rows, p.units, labels);
    if total.degrees != degrees {
        return false;
    }
    let cost = cost_of(p, flows);
    if total.cost != cost {
        return false;
    }
    let weights = flow_test::adjusted_weights(p, classes);
    let verdict = flow_test::verdict(degrees, cost, weights);
    total.verdict == verdict
}

// No rule is broken. No flow is looked for: where the other rules hold, the flows shown have least cost.
fn rules_hold(p: Plant, kept: SheetRead, numbers: &[i64]) -> bool
    requires { Accepted p × (kept.count ≤ max_streams) × (length kept.streams ≡ max_streams) }
    ensures { result ≡ passes (plant_of p) (parts_in kept) numbers.now }
{
    // Stays a chain of `if`s: each test needs what those before it have shown, as `requires` of flows_fit, nets_fit and total_fits.
    if !numbers_fit(p.units, numbers) {
        return false;
    }
    if kept.count != p.count {
        return false;
    }
    let mut arcs = [NONE as u8; ARCS];
    let mut rows = [0u64; ROWS];
    lay(p.streams, p.count as usize, &mut arcs, &mut rows);
    let bridges = bridges_of(&arcs, &rows);
    let classes = classes_of(p, bridges);
    let flows = shown_flows(classes, kept.streams);
    if !records_fit(p.count, kept.streams, classes, flows) {
        return false;
    }
    if !flows_fit(p, flows, numbers) {
        return false;
    }
    if !nets_fit(p, classes, flows) {
        return false;
    }
    total_fits(p, &arcs, &rows, bridges.labels, classes, flows, kept.total)
}

// The plant reader's refusals, then the sheet reader's, then a broken rule.
fn check(plant: &[u8], sheet: &[u8], numbers: &[i64]) -> Result<(), Refusal>
    ensures { CheckSays plant.now sheet.now numbers.now (fault_in result) }
{
    let p = plant_read::read_plant(plant)?;
    let kept = sheet_read::read_sheet(sheet)?;
    if !rules_hold(p, kept, numbers) {
        return Err(Refusal::RuleBroken);
    }
    Ok(())
}

// Its number: 26 where a rule is broken, 0 where the sheet passes.
pub fn check_sheet(plant: &[u8], sheet: &[u8], numbers: &[i64]) -> u8
    ensures { CheckSays plant.now sheet.now numbers.now result }
{
    check_number(check(plant, sheet, numbers))
}
