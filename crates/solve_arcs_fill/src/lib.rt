// The arcs and the rows of a plant's streams are laid.
#![tactic(auto)]

ghost use Rattle.std.specs.Prelude.{◌≡◌, ◌*◌, ◌≤◌, ◌<◌, get_or, length};
ghost use Rattle.plant_def.specs.Limits.{max_units, max_streams, places};
ghost use Rattle.plant_def.specs.Within.{WithinStream};
ghost use Rattle.flow_def.specs.Certificate.{weight_of};
ghost use Rattle.solve_def.specs.Sizes.{most_pull};
ghost use Rattle.solve_def.specs.Held.{reading_of};
ghost use Rattle.solve_arcs.specs.Cells.{arc_cells, row_cells};
ghost use Rattle.solve_arcs.specs.ArcNeeds.{Laid};
ghost use Rattle.solve_arcs_fill.specs.Puts.{ends_put, next_put, first_put, row_put, Layable};

use plant_def::Stream;
use plant_def::limits::MAX_STREAMS;
use solve_arcs::{ARCS, COUNT, NEXT, ROWS, TO, high_of, low_of, pull_of_reading, weight_of, wide};

// Where the arcs of stream i lead, from place u to place v.
fn put_ends(arcs: &mut [u8; ARCS], i: usize, u: u8, v: u8)
    requires { (length arcs.old ≡ arc_cells) × (i < max_streams) }
    ensures { arcs.new ≡ ends_put i u v arcs.old }
{
    arcs[TO + 2 * i] = u;
    arcs[TO + (2 * i + 1)] = v;
}

// The next arc of each of them.
fn put_next(arcs: &mut [u8; ARCS], i: usize, x: u8, y: u8)
    requires { (length arcs.old ≡ arc_cells) × (i < max_streams) }
    ensures { arcs.new ≡ next_put i x y arcs.old }
{
    arcs[NEXT + (2 * i + 1)] = x;
    arcs[NEXT + 2 * i] = y;
}

// They are the first of their places.
fn put_first(arcs: &mut [u8; ARCS], i: usize, u: usize, v: usize)
    requires { (length arcs.old ≡ arc_cells) × (i < max_streams) × (u < places) × (v < places) }
    ensures { arcs.new ≡ first_put i u v arcs.old }
{
    arcs[v] = (2 * i) as u8;
    arcs[u] = (2 * i + 1) as u8;
}

// Stream i becomes the last in the lists of its start and of its end.
fn list_arcs(arcs: &mut [u8; ARCS], i: usize, from: u8, to: u8)
    requires { (length arcs.old ≡ arc_cells) × (i < max_streams) × (from < places) × (to < places) }
    ensures { arcs.new
        ≡ first_put i from to (next_put i (get_or arcs.old from 0) (get_or arcs.old to 0) (ends_put i from to arcs.old)) }
{
    let u = wide(from);
    let v = wide(to);
    let x = arcs[u];
    let y = arcs[v];
    put_ends(arcs, i, from, to);
    put_next(arcs, i, x, y);
    put_first(arcs, i, u, v);
}

// The numbers of stream i.
fn put_row(rows: &mut [u64; ROWS], i: usize, s: Stream)
    requires { (length rows.old ≡ row_cells) × (i < max_streams) × WithinStream max_units s }
    ensures { (rows.new ≡ row_put i s rows.old) × (weight_of s * reading_of s ≤ most_pull) }
{
    rows[4 * i] = weight_of(s);
    rows[4 * i + 1] = 2 * pull_of_reading(s);
    rows[4 * i + 2] = low_of(s);
    rows[4 * i + 3] = high_of(s);
}

// The arcs and the rows of the streams, in one pass; no arc there yet.
pub fn lay(
    streams: [Stream; MAX_STREAMS],
    count: usize,
    arcs: &mut [u8; ARCS],
    rows: &mut [u64; ROWS],
)
    requires { Layable streams count arcs.old rows.old }
    ensures { Laid streams count arcs.new rows.new }
{
    arcs[COUNT] = count as u8;
    for i in 0..count {
        let s = streams[i];
        list_arcs(arcs, i, s.from, s.to);
        put_row(rows, i, s);
    }
}
