// Shifts and limits of the numbers that the solver works with. Each is stated here and nowhere else in code; specs/Sizes.antt has
// the inequality that each must meet.
use plant_def::limits::{MAX_WEIGHT, PLACES};

// An amount x is held as x + FLOW_SHIFT, and is at most MOST_FLOW.
pub const FLOW_SHIFT: u64 = 70_368_744_177_664;

pub const MOST_FLOW: u64 = 2 * FLOW_SHIFT;

// A net z is held as z + NET_SHIFT.
pub const NET_SHIFT: u64 = 72_057_594_037_927_936;

// A distance k and a stream's number i are held as k * NUMBERING + i; FAR is more than each of these. A stream that cannot move has the
// reduced cost FARTHEST.
pub const NUMBERING: u64 = 128;

pub const FARTHEST: u64 = 72_057_594_037_927_936;

pub const FAR: u64 = FARTHEST * NUMBERING;

// The greatest step.
pub const MOST_STEP: u64 = 536_870_912;

// The greatest reading and the greatest metered amount, in size.
pub const MOST_READING: u64 = 4_000_000;

pub const MOST_AMOUNT: u64 = 549_755_813_888;

// The greatest marginal cost of a step on a metered stream.
pub const MOST_MARGINAL: u64 = MAX_WEIGHT as u64 * (2 * (MOST_AMOUNT + MOST_READING) + MOST_STEP);

// A potential p is held as p + POTENTIAL_SHIFT; below POTENTIAL_FLOOR potentials are compressed.
pub const POTENTIAL_SHIFT: u64 = 144_115_188_075_855_872;

pub const POTENTIAL_FLOOR: u64 = POTENTIAL_SHIFT - PLACES as u64 * MOST_MARGINAL;

// Potentials of a hint are at most this below POTENTIAL_SHIFT, and its unmetered amounts at most HINT_ROOM in size.
pub const POTENTIAL_SPREAD: u64 = 18_014_398_509_481_984;

pub const HINT_ROOM: u64 = 35_184_372_088_832;

// The summed positive net up to which a hint is of use.
pub const MOST_TRIED: u64 = 512;
