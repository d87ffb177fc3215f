// Numbers as text, put into a slice at a place. Each function that puts answers the place behind its text.
#![tactic(auto)]

ghost use Rattle.std.specs.Prelude.{◌+◌, ◌≤◌, [], ◌∷◌, length};
ghost use Rattle.num_text.specs.Numerals.{decimal, signed_decimal, field};
ghost use Rattle.num_text.specs.Adding.{Added};

use num_bytes::size_of;

pub fn put_byte(byte: u8, at: usize, out: &mut [u8]) -> usize
    requires { at + 1 ≤ length out.old }
    ensures { Added (byte ∷ []) at out.old out.new result }
{
    out[at] = byte;
    at + 1
}

pub fn put_text(text: &[u8], at: usize, out: &mut [u8]) -> usize
    requires { at + length text.now ≤ length out.old }
    ensures { Added text.now at out.old out.new result }
{
    let next = at + text.len();
    out[at..next].copy_from_slice(text);
    next
}

// A number in decimal: the digits of its tenth, then its last one.
pub fn put_decimal(n: u64, at: usize, out: &mut [u8]) -> usize
    requires { at + length (decimal n) ≤ length out.old }
    ensures { Added (decimal n) at out.old out.new result }
{
    if n < 10 {
        return put_byte(b'0' + n as u8, at, out);
    }
    let last = put_decimal(n / 10, at, out);
    put_byte(b'0' + (n % 10) as u8, last, out)
}

// A signed number in decimal.
pub fn put_signed(z: i64, at: usize, out: &mut [u8]) -> usize
    requires { at + length (signed_decimal z) ≤ length out.old }
    ensures { Added (signed_decimal z) at out.old out.new result }
{
    let size = size_of(z);
    if 0 <= z {
        return put_decimal(size, at, out);
    }
    let next = put_byte(b'-', at, out);
    put_decimal(size, next, out)
}

// A number and a blank.
pub fn put_field(n: u64, at: usize, out: &mut [u8]) -> usize
    requires { at + length (field n) ≤ length out.old }
    ensures { Added (field n) at out.old out.new result }
{
    let next = put_decimal(n, at, out);
    put_byte(b' ', next, out)
}
