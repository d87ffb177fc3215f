// The moves of one stream, called as another crate calls them. The answers are written by hand.
use plant_def::Stream;
use ranged_call::{bare, widen};

// A stream from unit 3 to unit 1.
fn stream(metered: bool, ranged: bool, low: i32, high: i32) -> Stream {
    Stream {
        from: 3,
        to: 1,
        metered,
        ranged,
        weight: 250,
        reading: -4_000_000,
        low,
        high,
    }
}

// What a stream holds: its ends, whether it is metered, weight and reading, whether it has a range, and the range.
fn parts(s: Stream) -> [i64; 8] {
    [
        s.from as i64,
        s.to as i64,
        s.metered as i64,
        s.weight as i64,
        s.reading as i64,
        s.ranged as i64,
        s.low as i64,
        s.high as i64,
    ]
}

#[test]
fn widest_range_given(rt: HostRuntime) {
    assert_eq!(rt;
        parts(widen(stream(true, false, 0, 0))),
        [3, 1, 1, 250, -4_000_000, 1, -2_000_000_000, 2_000_000_000]
    );
}

#[test]
fn range_taken_away(rt: HostRuntime) {
    assert_eq!(rt;
        parts(bare(stream(true, true, -5, 9))),
        [3, 1, 1, 250, -4_000_000, 0, 0, 0]
    );
}

#[test]
fn others_widened_stay(rt: HostRuntime) {
    assert_eq!(rt;
        parts(widen(stream(true, true, -5, 9))),
        [3, 1, 1, 250, -4_000_000, 1, -5, 9]
    );
    assert_eq!(rt;
        parts(widen(stream(false, true, -5, 9))),
        [3, 1, 0, 250, -4_000_000, 1, -5, 9]
    );
    assert_eq!(rt;
        parts(widen(stream(false, false, 0, 0))),
        [3, 1, 0, 250, -4_000_000, 0, 0, 0]
    );
}

#[test]
fn others_bared_stay(rt: HostRuntime) {
    assert_eq!(rt;
        parts(bare(stream(true, false, -5, 9))),
        [3, 1, 1, 250, -4_000_000, 0, -5, 9]
    );
    assert_eq!(rt;
        parts(bare(stream(false, true, -5, 9))),
        [3, 1, 0, 250, -4_000_000, 1, -5, 9]
    );
    assert_eq!(rt;
        parts(bare(stream(false, false, -5, 9))),
        [3, 1, 0, 250, -4_000_000, 0, -5, 9]
    );
}
