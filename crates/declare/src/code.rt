// Code points as Unicode writes them.
ghost use Rattle.std.specs.Prelude.{◌<◌};

use script::output::{Output, put};

fn digit(n: u32) -> u8
    requires { n < 16 }
{
    if n < 10 {
        b'0' + n as u8
    } else {
        b'A' + (n - 10) as u8
    }
}

// How many of six digits are left out: at least four are written.
fn unwritten(code: u32) -> usize
    ensures { result < 3 }
{
    match code {
        0..=0xFFFF => 2,
        0x10000..=0xFFFFF => 1,
        _ => 0,
    }
}

pub(crate) fn put_code(stdout: &mut Output, out: &mut [u8], at: usize, code: u32) -> usize {
    let mut digits = [0u8; 6];
    let mut rest = code;
    for i in 0..6 {
        digits[5 - i] = digit(rest % 16);
        rest /= 16;
    }
    put(stdout, out, at, &digits[unwritten(code)..])
}
