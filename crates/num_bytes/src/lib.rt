// Numbers at the front of a slice, high byte first; refusals in their order; the laws of integers, sums, counts, bits and lists. Differences
// and sizes of numbers stand here, too.
#![tactic(auto)]

ghost use Rattle.std.specs.Prelude.{◌≡◌, nat_abs, ◌-◌, ◌≤◌, length, [], ◌∷◌};
ghost use Rattle.num_bytes.specs.Choice.{first_of};
ghost use Rattle.num_bytes.specs.Bytes.{be, put_be, signed, raw, over};

// Of two refusal numbers the first that is a refusal.
pub fn first_of(first: u8, second: u8) -> u8
    ensures { result ≡ first_of first second }
{
    if first != 0 { first } else { second }
}

// a − b, 0 where b is more.
pub fn minus(a: u64, b: u64) -> u64
    ensures { result ≡ a - b }
{
    a.saturating_sub(b)
}

// The size of a signed number.
pub fn size_of(z: i64) -> u64
    ensures { result ≡ nat_abs z }
{
    z.unsigned_abs()
}

pub fn get_u16(s: &[u8]) -> u16
    requires { 2 ≤ length s.now }
    ensures { result ≡ be 0 2 s.now }
{
    u16::from_be_bytes([s[0], s[1]])
}

pub fn get_u32(s: &[u8]) -> u32
    requires { 4 ≤ length s.now }
    ensures { result ≡ be 0 4 s.now }
{
    u32::from_be_bytes([s[0], s[1], s[2], s[3]])
}

pub fn get_u64(s: &[u8]) -> u64
    requires { 8 ≤ length s.now }
    ensures { result ≡ be 0 8 s.now }
{
    u64::from_be_bytes([s[0], s[1], s[2], s[3], s[4], s[5], s[6], s[7]])
}

// Two's complement.
pub fn get_i32(s: &[u8]) -> i32
    requires { 4 ≤ length s.now }
    ensures { result ≡ signed 4 (be 0 4 s.now) }
{
    get_u32(s).cast_signed()
}

pub fn get_i64(s: &[u8]) -> i64
    requires { 8 ≤ length s.now }
    ensures { result ≡ signed 8 (be 0 8 s.now) }
{
    get_u64(s).cast_signed()
}

// Bytes laid over the front of a slice.
fn put<const N: usize>(bytes: [u8; N], s: &mut [u8])
    requires { N ≤ length s.old }
    ensures { s.new ≡ over bytes.entry s.old }
{
    s[..N].copy_from_slice(&bytes);
}

pub fn put_u8(v: u8, s: &mut [u8])
    requires { 1 ≤ length s.old }
    ensures { s.new ≡ over (v ∷ []) s.old }
{
    s[0] = v;
}

pub fn put_u16(v: u16, s: &mut [u8])
    requires { 2 ≤ length s.old }
    ensures { s.new ≡ over (put_be 2 v) s.old }
{
    put(v.to_be_bytes(), s);
}

pub fn put_u32(v: u32, s: &mut [u8])
    requires { 4 ≤ length s.old }
    ensures { s.new ≡ over (put_be 4 v) s.old }
{
    put(v.to_be_bytes(), s);
}

pub fn put_u64(v: u64, s: &mut [u8])
    requires { 8 ≤ length s.old }
    ensures { s.new ≡ over (put_be 8 v) s.old }
{
    put(v.to_be_bytes(), s);
}

pub fn put_i32(z: i32, s: &mut [u8])
    requires { 4 ≤ length s.old }
    ensures { s.new ≡ over (put_be 4 (raw 4 z)) s.old }
{
    put_u32(z.cast_unsigned(), s);
}

pub fn put_i64(z: i64, s: &mut [u8])
    requires { 8 ≤ length s.old }
    ensures { s.new ≡ over (put_be 8 (raw 8 z)) s.old }
{
    put_u64(z.cast_unsigned(), s);
}
