// Standard input as a JSON text sequence: the texts stand between marks, the byte 1E.
ghost use Rattle.std.specs.Prelude.{◌≡◌, length};
ghost use Rattle.json_scan.specs.Json.{is_space};
ghost use Rattle.row.specs.Layout.{layout_length};
ghost use Rattle.declare.specs.Sequence.{all_space, is_text};

use crate::answers::answer;
use crate::complaint::complain;
use crate::tally::Tally;
use script::input::next_part;
use script::output::{Output, put, put_decimal};
use std::io;
use std::io::{Error, Stderr, Stdin};

// What begins a text.
const MARK: u8 = 0x1E;

fn is_space(b: u8) -> bool
    ensures { result ≡ is_space b }
{
    matches!(b, b' ' | b'\t' | b'\n' | b'\r')
}

fn all_space(s: &[u8]) -> bool
    ensures { result ≡ all_space s.now }
{
    s.iter().all(|b| is_space(*b))
}

// Is a piece a text? What stands before the first mark is none where it is white space, and nothing between two marks is none.
// Where there is no mark, all is one text.
#[tactic(auto, unfolding(crate::specs::Sequence::is_text))]
fn is_text(s: &[u8], first: bool, last: bool) -> bool
    ensures { result ≡ is_text s.now first last }
{
    if first {
        last || !all_space(s)
    } else {
        !s.is_empty()
    }
}

fn answer_text(
    stdout: &mut Output,
    mem: &mut [u8],
    text: &[u8],
    out: &mut [u8],
    tally: Tally,
) -> io::Result<Tally>
    requires { length mem.old ≡ layout_length }
{
    let more = tally.tried();
    let a = put(stdout, out, 0, b"text ");
    let b = put_decimal(stdout, out, a, more.texts as u64);
    answer(stdout, mem, text, out, b, more)
}

// A piece, where it is a text.
fn answer_piece(
    stdout: &mut Output,
    mem: &mut [u8],
    piece: &[u8],
    first: bool,
    last: bool,
    out: &mut [u8],
    tally: Tally,
) -> io::Result<Tally>
    requires { length mem.old ≡ layout_length }
{
    if is_text(piece, first, last) {
        return answer_text(stdout, mem, piece, out, tally);
    }
    Ok(tally)
}

fn unreadable(stdout: &mut Output, stderr: Stderr, why: Error, tally: Tally) -> io::Result<Tally> {
    complain(stdout, stderr, b"standard input", b" cannot be read", why)?;
    Ok(tally.unread())
}

// Each piece in turn. Nothing of a piece is kept but what the set keeps.
pub(crate) fn answer_sequence(
    stdin: Stdin,
    stdout: &mut Output,
    stderr: Stderr,
    mem: &mut [u8],
    buf: &mut [u8],
    out: &mut [u8],
) -> io::Result<Tally>
    requires { length mem.old ≡ layout_length }
{
    let mut tally = Tally::none();
    let mut before = None;
    for _ in 0..u64::MAX {
        let piece = match next_part(stdin, buf, MARK, before) {
            Ok(piece) => piece,
            Err(why) => return unreadable(stdout, stderr, why, tally),
        };
        let text = &buf[piece.from..piece.to];
        tally = answer_piece(stdout, mem, text, before.is_none(), piece.last, out, tally)?;
        if piece.last {
            return Ok(tally);
        }
        before = Some(piece);
    }
    Ok(tally)
}
