// The sets of places that W streams join, by labels, and the known flows into each, less those out of it.
#![tactic(auto)]

ghost use Rattle.std.specs.Prelude.{◌≡◌, not, ◌<◌, ◌↔◌, IsTrue, EachIndex, pos, get_or, length};
ghost use Rattle.plant_def.specs.Limits.{places};
ghost use Rattle.plant_def.specs.Within.{Accepted};
ghost use Rattle.plant_def.specs.Says.{plant_of};
ghost use Rattle.flow_def.specs.Flows.{amount_at};
ghost use Rattle.flow_def.specs.Labels.{labels_of};
ghost use Rattle.flow_def.specs.Calls.{classes_of};
ghost use Rattle.sheet_def.specs.Calls.{AllSmall};
ghost use Rattle.sheet_def.specs.Sheets.{known};
ghost use Rattle.foreign_def.specs.Test.{withheld_only, ArePlaces, Nets, Moved, Roomy, nets_fit};

use flow_components::{own_numbers, step};
use flow_def::Class;
use plant_def::Plant;
use plant_def::limits::{MAX_STREAMS, PLACES};

fn is_withheld(class: Class) -> bool
    ensures { result ≡ not (known class) }
{
    matches!(class, Class::Withheld)
}

// The labels by the W streams.
fn labels_by(p: Plant, classes: [Class; MAX_STREAMS]) -> [u8; PLACES]
    requires { Accepted p × (classes ≡ classes_of (plant_of p)) }
    ensures { result ≡ labels_of (withheld_only (plant_of p)) (plant_of p) }
{
    let mut labels = own_numbers();
    for j in 0..p.count as usize {
        step(&mut labels, p.streams[j], is_withheld(classes[j]));
    }
    labels
}

// A stream that carries x from one label to another.
fn carry(nets: &mut [i64; PLACES], to: u8, from: u8, x: i64)
    requires { (length nets.old ≡ places) × (to < places) × (from < places) × Roomy x nets.old }
    ensures { Moved to from x nets.old nets.new }
{
    let t = to as usize;
    let f = from as usize;
    nets[t] += x;
    nets[f] -= x;
}

// The net of each label: what flows bring to its places, less what they take.
fn nets_by(p: Plant, labels: [u8; PLACES], flows: [i64; MAX_STREAMS]) -> [i64; PLACES]
    requires { Accepted p × AllSmall flows × ArePlaces labels }
    ensures { Nets labels (plant_of p).streams (amount_at flows) result }
{
    let mut nets = [0i64; PLACES];
    for i in 0..p.count as usize {
        let s = p.streams[i];
        let u = s.from as usize;
        let v = s.to as usize;
        carry(&mut nets, labels[v], labels[u], flows[i]);
    }
    nets
}

// Whether all nets are 0.
fn none_over(nets: &[i64; PLACES]) -> bool
    ensures { IsTrue result ↔ EachIndex nets.now (λ k. get_or nets.now k (pos 0) ≡ pos 0) }
{
    nets.iter().all(|net| *net == 0)
}

// All nets are 0.
pub fn nets_fit(p: Plant, classes: [Class; MAX_STREAMS], flows: [i64; MAX_STREAMS]) -> bool
    requires { Accepted p × (classes ≡ classes_of (plant_of p)) × AllSmall flows }
    ensures { result ≡ nets_fit (labels_of (withheld_only (plant_of p)) (plant_of p)) (plant_of p).streams (amount_at flows) }
{
    let labels = labels_by(p, classes);
    let nets = nets_by(p, labels, flows);
    none_over(&nets)
}
