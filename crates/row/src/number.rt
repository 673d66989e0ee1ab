// Numbers in bytes, lowest first.
ghost use Rattle.std.specs.Prelude.{◌≡◌, ◌+◌, ◌≤◌, length};
ghost use Rattle.row.specs.Numbers.{number};

pub fn u16_at(mem: &[u8], at: usize) -> u16
    requires { at + 2 ≤ length mem.now }
    ensures { result ≡ number mem.now at 2 }
{
    u16::from_le_bytes(mem[at..at + 2].try_into().unwrap())
}

pub fn u64_at(mem: &[u8], at: usize) -> u64
    requires { at + 8 ≤ length mem.now }
    ensures { result ≡ number mem.now at 8 }
{
    u64::from_le_bytes(mem[at..at + 8].try_into().unwrap())
}
