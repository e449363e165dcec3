// Bytes and numbers, written to the front of a buffer.
ghost use Rattle.std.specs.Prelude.{◌<◌, ◌≤◌, length, decimal};
ghost use Rattle.std.specs.Fmt.{signed_decimal};
ghost use Rattle.report.specs.Buffers.{Wrote};

pub(crate) fn write_bytes(rest: &mut [u8], text: &[u8]) -> usize
    requires { length text.now ≤ length rest.old }
    ensures { Wrote text.now rest.old result rest.new }
{
    let n = text.len();
    rest[0..n].copy_from_slice(text);
    n
}

// The decimal digits of `n`, where there is room for just these. By the library they would go to a text of fixed
// capacity first and then be copied, and each of the two could be refused.
fn write_digits(rest: &mut [u8], n: usize) -> usize
    requires { length (decimal n) ≤ length rest.old }
    ensures { Wrote (decimal n) rest.old result rest.new }
{
    if n < 10 {
        rest[0] = b'0' + n as u8;
        return 1;
    }
    let at = write_digits(rest, n / 10);
    rest[at] = b'0' + (n % 10) as u8;
    at + 1
}

// A number in decimal.
pub(crate) fn write_number(rest: &mut [u8], n: usize) -> usize
    requires { 20 ≤ length rest.old }
    ensures wrote { Wrote (decimal n) rest.old result rest.new }
    ensures bound { result ≤ 20 }
{
    write_digits(rest, n)
}

// A number of three digits at most: the bound by which a line of a switch or a measure is short.
pub(crate) fn write_small(rest: &mut [u8], n: usize) -> usize
    requires { (n < 1000) × (3 ≤ length rest.old) }
    ensures wrote { Wrote (decimal n) rest.old result rest.new }
    ensures bound { result ≤ 3 }
{
    write_digits(rest, n)
}

// A number in decimal, with a minus before it where it is negative.
pub(crate) fn write_signed(rest: &mut [u8], z: i32) -> usize
    requires { 21 ≤ length rest.old }
    ensures wrote { Wrote (signed_decimal z) rest.old result rest.new }
    ensures bound { result ≤ 21 }
{
    let size = z.unsigned_abs() as usize;
    if z < 0 {
        rest[0] = b'-';
        1 + write_number(&mut rest[1..], size)
    } else {
        write_number(rest, size)
    }
}
