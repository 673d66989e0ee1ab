// Line and column of a byte.
ghost use Rattle.std.specs.Prelude.{◌≡◌, ◌+◌, ◌≤◌, ◌<◌, length};
ghost use Rattle.declare.specs.Spots.{stepped, spot_of};

// Both are counted from 1, the column in bytes.
#[derive(Clone, Copy)]
pub(crate) struct Spot {
    pub(crate) line: usize,
    pub(crate) column: usize,
}

// Where the byte behind b stands.
#[tactic(auto, unfolding(crate::specs::Spots::stepped))]
fn step(spot: Spot, b: u8) -> Spot
    requires { (spot.line < 18446744073709551615) × (spot.column < 18446744073709551615) }
    ensures { result ≡ stepped spot b }
{
    if b == b'\n' {
        Spot {
            line: spot.line + 1,
            column: 1,
        }
    } else {
        Spot {
            line: spot.line,
            column: spot.column + 1,
        }
    }
}

// Where the byte at a position of a text stands; its end stands behind the last byte.
pub(crate) fn spot_of(text: &[u8], at: usize) -> Spot
    requires { at ≤ length text.now }
    ensures { (result ≡ spot_of text.now at) × (0 < result.column) × (result.column ≤ at + 1) }
{
    let mut spot = Spot { line: 1, column: 1 };
    for b in &text[..at] {
        spot = step(spot, *b);
    }
    spot
}
