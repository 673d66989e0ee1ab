// What the system could not do goes to standard error, with its reason.
use crate::columns::put_shown;
use script::output::{Output, put};
use std::io;
use std::io::{Error, Stderr};

// What was to be read, what could not be done with it, and why.
pub(crate) fn complain(
    stdout: &mut Output,
    stderr: Stderr,
    name: &[u8],
    what: &[u8],
    why: Error,
) -> io::Result<()> {
    let mut line = [0u8; 65536];
    let a = put_shown(stdout, &mut line, 0, name);
    let b = put(stdout, &mut line, a, what);
    let all = &line[..];
    if b <= all.len() {
        stderr.write_all(&all[0..b])?;
    }
    eprintln!(stderr; ": {why}")
}
