// Amounts settled at potentials, each the nearest to its reading in its range, and the nets that they leave.
#![tactic(auto)]

ghost use Rattle.std.specs.Prelude.{◌≡◌, ℕ, ◌+◌, ◌*◌, ◌≤◌, ◌<◌, ltb, get_or, length, take, List};
ghost use Rattle.num_bytes.specs.Choice.{pick};
ghost use Rattle.plant_def.specs.Limits.{max_weight, places, max_streams};
ghost use Rattle.solve_def.specs.Sizes.{most_pull, potential_shift, most_flow, net_room};
ghost use Rattle.solve_def.specs.Model.{clamped, nearest_amount, settled_to, left, come, nets_to, settled, excess_sum, no_hint};
ghost use Rattle.solve_arcs.specs.ArcNeeds.{Row, Laying, OfStreams};
ghost use Rattle.solve_def.specs.SearchNeeds.{Potentials};
ghost use Rattle.solve_def.specs.SolverNeeds.{Amounts, Around};
ghost use Rattle.solve_settle.specs.Hints.{hint_of, Hinting, Settling};
ghost use Rattle.solve_settle.specs.Settled.{RowReads, settled_row};

use plant_def::limits::{MAX_STREAMS, PLACES};
use solve_arcs::{ARCS, ROWS, count_of, end_at};
use solve_def::sizes::{FLOW_SHIFT, NET_SHIFT, POTENTIAL_SHIFT};
use solve_def::{Hint, State};

// The amount nearest to a reading R, at the potentials of a stream's start and its end, by its weight and twice the weight times R. (One
// quotient, with no branch: on which side of the reading the amount lies cannot be foreseen.)
fn nearest(w: u64, pull: u64, pu: u64, pv: u64) -> u64
    requires { (1 ≤ w) × (w ≤ max_weight) × (pull ≤ 2 * most_pull) × (pu ≤ potential_shift) × (pv ≤ potential_shift) }
    ensures { (R : ℕ) → pull ≡ 2 * (w * R) → result ≡ nearest_amount w R pu pv }
{
    (pull + (pv + w)).saturating_sub(pu) / (2 * w)
}

// The amount x of a stream with the weight w where it is metered; else the one that it had.
fn settled_or(w: u64, x: u64, old: u64) -> u64
    ensures { result ≡ pick (ltb 0 w) x old }
{
    if 0 < w { x } else { old }
}

// A number brought into a range.
fn clamp(low: u64, high: u64, x: u64) -> u64
    ensures { result ≡ clamped low high x }
{
    if x < low { low } else { x.min(high) }
}

// The amount of stream i, if it is metered, at the potentials of its start and its end: by its row. (An unmetered one has some number, by
// the weight 1 in place of 0.)
pub fn amount_at(rows: &[u64; ROWS], i: usize, pu: u64, pv: u64) -> u64
    requires { Row rows.now i × (pu ≤ potential_shift) × (pv ≤ potential_shift) }
    ensures { (R : ℕ) → RowReads rows.now i R → 1 ≤ get_or rows.now (4 * i) 0
        → result ≡ settled_row rows.now i R pu pv }
{
    let x = nearest(rows[4 * i].max(1), rows[4 * i + 1], pu, pv);
    clamp(rows[4 * i + 2], rows[4 * i + 3], x)
}

// Each metered stream's amount is settled; the others stay as they are.
pub fn settle_flows(
    arcs: &[u8; ARCS],
    rows: &[u64; ROWS],
    potentials: &[u64; PLACES],
    flows: &mut [u64; MAX_STREAMS],
)
    requires { Laying arcs.now rows.now × Potentials potentials.now × (length flows.old ≡ max_streams) }
    ensures { OfStreams arcs.now rows.now
        (λ ss n. flows.new ≡ settled_to ss potentials.now flows.old n) }
{
    let n = count_of(arcs);
    for i in 0..n {
        let u = end_at(arcs, 2 * i);
        let v = end_at(arcs, 2 * i + 1);
        let x = amount_at(rows, i, potentials[u], potentials[v]);
        flows[i] = settled_or(rows[4 * i], x, flows[i]);
    }
}

// A stream's amount leaves its start and comes to its end.
fn book(nets: &mut [u64; PLACES], u: usize, v: usize, x: u64)
    requires { (u < places) × (v < places) × (x ≤ most_flow) × Around nets.old net_room }
    ensures { nets.new ≡ come (left nets.old u x) v x }
{
    nets[u] = nets[u] + FLOW_SHIFT - x;
    nets[v] = nets[v] + x - FLOW_SHIFT;
}

// The nets of all places.
pub fn nets_of(arcs: &[u8; ARCS], flows: &[u64; MAX_STREAMS]) -> [u64; PLACES]
    requires { ((rs : List ℕ) × Laying arcs.now rs) × Amounts flows.now }
    ensures { (rs : List ℕ) (w : Laying arcs.now rs) → result ≡ nets_to (take w.n w.streams) flows.now w.n }
{
    let n = count_of(arcs);
    let mut nets = [NET_SHIFT; PLACES];
    for i in 0..n {
        let u = end_at(arcs, 2 * i);
        let v = end_at(arcs, 2 * i + 1);
        book(&mut nets, u, v, flows[i]);
    }
    nets
}

// Amounts and nets at the potentials of a hint.
pub fn settle(arcs: &[u8; ARCS], rows: &[u64; ROWS], h: Hint) -> State
    requires { Hinting arcs.now rows.now h }
    ensures { OfStreams arcs.now rows.now (λ ss n. result ≡ settled ss h) }
{
    let mut flows = h.flows;
    settle_flows(arcs, rows, &h.potentials, &mut flows);
    let nets = nets_of(arcs, &flows);
    State {
        flows,
        potentials: h.potentials,
        nets,
    }
}

// Amounts and nets are settled anew at the potentials.
pub fn resettle(arcs: &[u8; ARCS], rows: &[u64; ROWS], state: &mut State)
    requires { Hinting arcs.now rows.now (hint_of state.old.flows state.old.potentials) }
    ensures { Settling arcs.now rows.now (hint_of state.old.flows state.old.potentials) state.new }
{
    settle_flows(arcs, rows, &state.potentials, &mut state.flows);
    state.nets = nets_of(arcs, &state.flows);
}

// No hint: amounts and potentials 0.
pub fn no_hint() -> Hint
    ensures { result ≡ no_hint }
{
    Hint {
        flows: [FLOW_SHIFT; MAX_STREAMS],
        potentials: [POTENTIAL_SHIFT; PLACES],
    }
}

// Amounts and potentials become those of no hint; the nets stay as they are.
pub fn forget(state: &mut State)
    ensures { (hint_of state.new.flows state.new.potentials ≡ no_hint) × (state.new.nets ≡ state.old.nets) }
{
    state.flows = [FLOW_SHIFT; MAX_STREAMS];
    state.potentials = [POTENTIAL_SHIFT; PLACES];
}

// The summed positive net.
pub fn excess_sum(nets: &[u64; PLACES]) -> u64
    requires { Around nets.now net_room }
    ensures { result ≡ excess_sum nets.now }
{
    let mut sum: u64 = 0;
    for z in nets {
        sum += z.saturating_sub(NET_SHIFT);
    }
    sum
}
