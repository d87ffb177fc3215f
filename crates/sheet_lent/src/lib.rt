// The sheet call for callers who lend the offices' last sheet numbers in a slice; its marked places as the bits of a number.
#![tactic(auto)]

ghost use Rattle.std.specs.Prelude.{◌≡◌, ◌≤◌, ◌<◌, ◌^◌, length, take};
ghost use Rattle.num_bytes.specs.Bytes.{over};
ghost use Rattle.plant_def.specs.Limits.{places};
ghost use Rattle.sheet_def.specs.Counters.{offices};
ghost use Rattle.sheet_def.specs.Says.{SheetSays};
ghost use Rattle.sheet_lent.specs.Bits.{with_bits};
ghost use Rattle.sheet_lent.specs.Lent.{LentSays};

use num_lent::bits_of;
use sheet_call::balance_plant;
use sheet_def::kinds::OFFICES;

// What the sheet call hands over, the marks as bits.
#[derive(Clone, Copy)]
pub struct Drawn {
    pub number: u8,
    pub written: usize,
    pub lasts: [u32; OFFICES],
    pub bits: u64,
}

// What is handed over beside the slices.
#[derive(Clone, Copy)]
pub struct Handed {
    pub number: u8,
    pub written: usize,
    pub bits: u64,
}

// The sheet call.
fn balance_marked(file: &[u8], office: u8, lasts: [u32; OFFICES], sheet: &mut [u8]) -> Drawn
    ensures { SheetSays file.now office lasts sheet.old sheet.new
        (with_bits result.number result.written result.lasts result.bits) × (result.bits < 2 ^ places) }
{
    let drawn = balance_plant(file, office, lasts, sheet);
    let bits = bits_of(drawn.marked);
    let lasts = drawn.lasts;
    Drawn {
        number: drawn.number,
        written: drawn.written,
        lasts,
        bits,
    }
}

// The first eight of a slice.
fn lasts_in(lasts: &[u32]) -> [u32; OFFICES]
    requires { offices ≤ length lasts.now }
    ensures { result ≡ take offices lasts.now }
{
    let mut front = [0u32; OFFICES];
    front.copy_from_slice(&lasts[..OFFICES]);
    front
}

// The last numbers at the front of a slice, the rest of it as it was.
fn put_lasts(after: [u32; OFFICES], lasts: &mut [u32])
    requires { offices ≤ length lasts.old }
    ensures { (lasts.new ≡ over after lasts.old) × (length after ≡ offices) }
{
    lasts[..OFFICES].copy_from_slice(&after);
}

// The sheet call over lent last numbers: the sheet in the slice, the calling office's number one higher; or a refusal, slice and
// numbers as they were. Fewer than eight numbers are refused as 1; those past the eighth stay as they are.
pub fn balance_lent(file: &[u8], office: u8, lasts: &mut [u32], sheet: &mut [u8]) -> Handed
    ensures { LentSays file.now office lasts.old sheet.old sheet.new
        (with_bits result.number result.written lasts.new result.bits) × (result.bits < 2 ^ places) }
{
    if lasts.len() < OFFICES {
        return Handed {
            number: 1,
            written: 0,
            bits: 0,
        };
    }
    let before = lasts_in(lasts);
    let drawn = balance_marked(file, office, before, sheet);
    put_lasts(drawn.lasts, lasts);
    Handed {
        number: drawn.number,
        written: drawn.written,
        bits: drawn.bits,
    }
}
