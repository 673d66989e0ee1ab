// The script, line by line.
ghost use Rattle.std.specs.Prelude.{◌≤◌, length};
ghost use Rattle.row.specs.Layout.{layout_length};

use crate::calls::answer;
use crate::memory::{MEMORY, first, poke};
use crate::report::{put_ok, put_what};
use commands::{Command, command_of};
use row::Layout;
use script::input::next_line;
use script::output::{Output, flush};
use std::io;
use std::io::{Stdin, Stdout};

fn put_done(stdout: &mut Output, done: bool, out: &mut [u8]) -> usize {
    if done {
        put_ok(stdout, out)
    } else {
        put_what(stdout, out)
    }
}

// What a command does, and its answer. The calls are lent the first bytes of the memory.
fn obey(
    stdout: &mut Output,
    command: Option<Command>,
    text: &[u8],
    memory: &mut [u8],
    lent: usize,
    buffer: &mut [u8],
    out: &mut [u8],
) -> usize
    requires { lent ≤ length memory.old }
{
    match command {
        Some(Command::Lend(n)) => put_done(stdout, n <= memory.len(), out),
        Some(Command::Fill(byte)) => {
            memory.fill(byte);
            put_ok(stdout, out)
        }
        Some(Command::Poke(at, n)) => {
            let done = poke(memory, at, first(text, n));
            put_done(stdout, done, out)
        }
        Some(Command::Ask(call)) => answer(stdout, call, text, &mut memory[..lent], buffer, out),
        None => put_what(stdout, out),
    }
}

// How many bytes are lent after a command, of at most so many.
fn lent_after(command: Option<Command>, lent: usize, most: usize) -> usize
    requires { lent ≤ most }
    ensures { result ≤ most }
{
    match command {
        Some(Command::Lend(n)) if n <= most => n,
        _ => lent,
    }
}

fn replay(
    stdin: Stdin,
    stdout: &mut Output,
    input: &mut [u8],
    text: &mut [u8],
    memory: &mut [u8],
    buffer: &mut [u8],
    out: &mut [u8],
) -> io::Result<()>
    requires { layout_length ≤ length memory.old }
{
    let mut lent = Layout::LENGTH;
    let mut before = None;
    for _ in 0..u64::MAX {
        let Some(line) = next_line(stdin, input, before)? else {
            return Ok(());
        };
        let command = command_of(&input[line.from..line.to], line.cut, text);
        lent = lent_after(command, lent, memory.len());
        let end = obey(stdout, command, text, memory, lent, buffer, out);
        flush(stdout, out, end)?;
        before = Some(line);
    }
    Ok(())
}

// Answers the script on standard input.
pub fn run(stdin: Stdin, stdout: Stdout) -> io::Result<()> {
    let mut output = Output::new(stdout);
    let mut input = [0u8; 131072];
    let mut text = [0u8; 65536];
    let mut memory = [0u8; MEMORY];
    let mut buffer = [0u8; 131072];
    let mut out = [0u8; 65536];
    replay(
        stdin,
        &mut output,
        &mut input,
        &mut text,
        &mut memory,
        &mut buffer,
        &mut out,
    )
}
