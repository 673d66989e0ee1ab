// What a line of a script asks for. Of bytes a command has the number: they lie in a buffer beside it.

// A call of the library.
#[derive(Clone, Copy)]
pub enum Call {
    Open,
    // A place and a text.
    Put(usize, usize),
    // A place and a row.
    Name(usize, usize),
    // A place, an offset and the buffer's length.
    Canonical(usize, usize, usize),
    // A place.
    Fingerprint(usize),
    Rows(usize),
    // A text.
    Scan(usize),
    Digest,
}

#[derive(Clone, Copy)]
pub enum Command {
    // So many bytes of the memory are lent to the calls.
    Lend(usize),
    Fill(u8),
    // A place in memory and bytes.
    Poke(usize, usize),
    Ask(Call),
}
