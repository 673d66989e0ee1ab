// A size in decimal, most significant digit first.
ghost use Rattle.std.specs.Prelude.{◌≡◌, length};
ghost use Rattle.ground.specs.Bytes.{store};
ghost use Rattle.canonical.specs.Decimal.{decimal};
ghost use Rattle.canonical.specs.Wrote.{Wrote};

use ground::copy;

// How many digits it has.
fn digits_length(size: u64) -> usize
    ensures { result ≡ length (decimal size) }
{
    match size.checked_ilog10() {
        Some(k) => k as usize + 1,
        None => 1,
    }
}

// Its n digits: those of a tenth of it, then the last.
fn write_digits(size: u64, n: usize, part: &mut [u8])
    requires { n ≡ length (decimal size) }
    ensures { part.new ≡ store part.old 0 (decimal size) }
{
    let last = [48 + (size % 10) as u8];
    if size < 10 {
        copy(part, 0, &last);
        return;
    }
    write_digits(size / 10, n - 1, part);
    copy(part, n - 1, &last);
}

pub(crate) fn write_decimal(size: u64, part: &mut [u8]) -> usize
    ensures { Wrote part.old 0 part.new result (decimal size) }
{
    let n = digits_length(size);
    write_digits(size, n, part);
    n
}
