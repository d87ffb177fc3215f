// The class of a stream, and the degrees of freedom.
#![tactic(auto)]

ghost use Rattle.std.specs.Prelude.{◌≡◌, ◌≤◌, ◌<◌, length};
ghost use Rattle.plant_def.specs.Limits.{max_units, places};
ghost use Rattle.plant_def.specs.declared.Plant.{Plant};
ghost use Rattle.plant_def.specs.declared.Stream.{Stream};
ghost use Rattle.plant_def.specs.Says.{plant_of};
ghost use Rattle.flow_def.specs.Classes.{degrees};
ghost use Rattle.flow_def.specs.Calls.{Grouped, class_in};
ghost use Rattle.solve_arcs_fill.specs.Plants.{LaidOf};

use flow_components;
use flow_def::{Class, Which};
use plant_def::limits::PLACES;
use solve_arcs::{ARCS, ROWS};

// The class of a stream from place u to place v, by the labels by the unmetered streams, the label that it took away and the bits of the
// streams that lie on a loop.
pub fn class_of(
    labels: &[u8; PLACES],
    metered: bool,
    u: usize,
    v: usize,
    h: u8,
    looped: u64,
) -> Class
    requires { (u < places) × (v < places) × (length labels.now ≡ places) × (h < places) }
    ensures { (s : Stream) → s.metered ≡ metered → s.from ≡ u → s.to ≡ v → result ≡ class_in labels.now s h looped }
{
    let same = labels[u] == labels[v];
    let loops = (looped >> h) % 2 == 1;
    if metered {
        if same { Class::AsRead } else { Class::Adjusted }
    } else {
        if loops { Class::Withheld } else { Class::Given }
    }
}

// The number of groups of a plant with so many units less the number of connected pieces.
pub fn degrees_of(arcs: &[u8; ARCS], rows: &[u64; ROWS], units: u8, labels: [u8; PLACES]) -> u8
    requires { (p : Plant) × LaidOf p arcs.now rows.now × (p.units ≡ units) × Grouped p labels }
    ensures { ((p : Plant) → LaidOf p arcs.now rows.now → p.units ≡ units → Grouped p labels
        → result ≡ degrees (plant_of p)) × (result ≤ max_units) }
{
    let count = flow_components::own_labels(labels, units);
    let all = flow_components::group(arcs, rows, Which::Every);
    let pieces = flow_components::own_labels(all, units);
    count - pieces
}
