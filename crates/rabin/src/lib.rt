// The Rabin fingerprint, CRC-64-AVRO, with a signed state of 64 bits.
#![tactic(auto)]

mod table;

ghost use Rattle.std.specs.Prelude.{◌≡◌};
ghost use Rattle.rabin.specs.Rabin.{bits_of, signed_of, entry_of, empty, byte_step, rabin_from, rabin_of, bytes_of};
ghost use Rattle.rabin.specs.Table.{table};

use table::entries;

// The state after some bytes.
#[derive(Clone, Copy)]
pub struct Rabin {
    pub state: i64,
}

impl Rabin {
    // The fingerprint of no bytes.
    pub const EMPTY: i64 = -4513414715797952619;

    pub fn new() -> Self
        ensures { result.state ≡ empty }
    {
        Rabin { state: Self::EMPTY }
    }

    // One byte more. For many, `update` is the fast way.
    pub fn byte(self, b: u8) -> Self
        ensures { result.state ≡ byte_step self.state b }
    {
        let t = entries();
        Rabin {
            state: step(&t, self.state, b),
        }
    }

    // The bytes of a slice more.
    pub fn update(self, bytes: &[u8]) -> Self
        ensures { result.state ≡ rabin_from self.state bytes.now }
    {
        let t = entries();
        let mut s = self.state;
        for b in bytes {
            s = step(&t, s, *b);
        }
        Rabin { state: s }
    }

    // The signed result.
    pub fn result(self) -> i64
        ensures { result ≡ self.state }
    {
        self.state
    }

    // The eight bytes of the result, lowest first.
    pub fn bytes(self) -> [u8; 8]
        ensures { result ≡ bytes_of self.state }
    {
        self.state.to_le_bytes()
    }
}

// The fingerprint of the bytes of a slice.
pub fn fingerprint(bytes: &[u8]) -> i64
    ensures { result ≡ rabin_of bytes.now }
{
    Rabin::new().update(bytes).result()
}

// An entry of the table.
pub fn entry(i: u8) -> i64
    ensures { result ≡ signed_of (entry_of i) }
{
    entries()[usize::from(i)]
}

// One byte, by the table. The arithmetic shift with its high byte cleared is the shift without sign.
fn step(t: &[i64; 256], s: i64, b: u8) -> i64
    requires { t.now ≡ table }
    ensures { result ≡ byte_step s b }
{
    let i = ((s ^ i64::from(b)) & 0xff) as usize;
    ((s >> 8) & 0x00ff_ffff_ffff_ffff) ^ t[i]
}
