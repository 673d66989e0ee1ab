// Files, one text each.
ghost use Rattle.std.specs.Prelude.{◌≡◌, length};
ghost use Rattle.row.specs.Layout.{layout_length};

use crate::answers::answer;
use crate::columns::put_shown;
use crate::complaint::complain;
use crate::tally::Tally;
use script::input::read_full;
use script::output::Output;
use std::env::Env;
use std::fs::File;
use std::io;
use std::io::{Error, ErrorKind, Stderr};

// The text of a file that is open. Of one that does not fit the buffer the first bytes are read: they are more than a text may have.
fn answer_open(
    stdout: &mut Output,
    stderr: Stderr,
    mut file: File,
    path: &[u8],
    mem: &mut [u8],
    text: &mut [u8],
    out: &mut [u8],
    tally: Tally,
) -> io::Result<Tally>
    requires { length mem.old ≡ layout_length }
{
    match read_full(&mut file, text) {
        Ok(n) => {
            let at = put_shown(stdout, out, 0, path);
            answer(stdout, mem, &text[..n], out, at, tally.tried())
        }
        Err(why) => {
            complain(stdout, stderr, path, b" cannot be read", why)?;
            Ok(tally.unread())
        }
    }
}

// A file, whose path is text.
fn open(rt: &HostRuntime, path: &[u8]) -> io::Result<File> {
    match str::from_utf8(path) {
        Ok(path) => File::open(rt, path),
        Err(_) => Err(Error::new(ErrorKind::InvalidFilename, "the path is not UTF-8")),
    }
}

fn answer_file(
    rt: &HostRuntime,
    stdout: &mut Output,
    path: &[u8],
    mem: &mut [u8],
    text: &mut [u8],
    out: &mut [u8],
    tally: Tally,
) -> io::Result<Tally>
    requires { length mem.old ≡ layout_length }
{
    match open(rt, path) {
        Ok(file) => answer_open(stdout, rt.stderr(), file, path, mem, text, out, tally),
        Err(why) => {
            complain(stdout, rt.stderr(), path, b" cannot be opened", why)?;
            Ok(tally.unread())
        }
    }
}

// The file that argument i names.
fn answer_argument(
    rt: &HostRuntime,
    stdout: &mut Output,
    i: usize,
    mem: &mut [u8],
    text: &mut [u8],
    out: &mut [u8],
    tally: Tally,
) -> io::Result<Tally>
    requires { length mem.old ≡ layout_length }
{
    let mut path = [0u8; 4096];
    match rt.arg(i, &mut path) {
        Ok(n) => answer_file(rt, stdout, &path[..n], mem, text, out, tally),
        Err(_) => {
            eprintln!(rt; "an argument cannot be read: it is too long")?;
            Ok(tally.unread())
        }
    }
}

// The files that the arguments name, of which there are n with the program's own name.
pub(crate) fn answer_files(
    rt: &HostRuntime,
    stdout: &mut Output,
    n: usize,
    mem: &mut [u8],
    text: &mut [u8],
    out: &mut [u8],
) -> io::Result<Tally>
    requires { length mem.old ≡ layout_length }
{
    let mut tally = Tally::none();
    for i in 1..n {
        tally = answer_argument(rt, stdout, i, mem, text, out, tally)?;
    }
    Ok(tally)
}
