// From a line to a command. Verbs are told apart by `same`. Tried: a `match` on the words leaves a goal for each byte at which a verb
// may differ.
ghost use Rattle.std.specs.Prelude.{◌≡◌};
ghost use Rattle.ground.specs.Bytes.{store};
ghost use Rattle.script.specs.Words.{words_of};
ghost use Rattle.script.specs.Hex.{word_bytes};
ghost use Rattle.commands.specs.Commands.{of_none, fill_by, of_number, scan_by, of_one, name_of, of_bytes_at, of_two, canonical_by, of_three, of_words, last_word, text_length, of_cut, command_of};

use crate::command::{Call, Command};
use ground::same;
use json_scan::Scan;
use script::hex::unhex;
use script::numbers::decimal;
use script::words::{word, word_count};

#[tactic(auto, unfolding(crate::specs::Commands::of_none))]
fn of_none(verb: &[u8]) -> Option<Command>
    ensures { result ≡ of_none verb.now }
{
    if same(verb, b"open") {
        Some(Command::Ask(Call::Open))
    } else if same(verb, b"digest") {
        Some(Command::Ask(Call::Digest))
    } else {
        None
    }
}

#[tactic(auto, unfolding(crate::specs::Commands::fill_by))]
fn fill_by(n: usize) -> Option<Command>
    ensures { result ≡ fill_by n }
{
    Some(Command::Fill(u8::try_from(n).ok()?))
}

#[tactic(auto, unfolding(crate::specs::Commands::of_number))]
fn of_number(verb: &[u8], n: usize) -> Option<Command>
    ensures { result ≡ of_number verb.now n }
{
    if same(verb, b"memory") {
        Some(Command::Lend(n))
    } else if same(verb, b"fill") {
        fill_by(n)
    } else if same(verb, b"fingerprint") {
        Some(Command::Ask(Call::Fingerprint(n)))
    } else if same(verb, b"rows") {
        Some(Command::Ask(Call::Rows(n)))
    } else {
        None
    }
}

fn scan_of(bytes: Option<usize>) -> Option<Command>
    ensures { result ≡ scan_by bytes }
{
    Some(Command::Ask(Call::Scan(bytes?)))
}

// A verb with one word, which stands for a number or for bytes or for both.
#[tactic(auto, unfolding(crate::specs::Commands::of_one))]
fn of_one(verb: &[u8], number: Option<usize>, bytes: Option<usize>) -> Option<Command>
    ensures { result ≡ of_one verb.now number bytes }
{
    if same(verb, b"scan") {
        scan_of(bytes)
    } else {
        of_number(verb, number?)
    }
}

fn name_of(place: Option<usize>, row: Option<usize>) -> Option<Command>
    ensures { result ≡ name_of place row }
{
    Some(Command::Ask(Call::Name(place?, row?)))
}

#[tactic(auto, unfolding(crate::specs::Commands::of_bytes_at))]
fn of_bytes_at(verb: &[u8], at: usize, n: usize) -> Option<Command>
    ensures { result ≡ of_bytes_at verb.now at n }
{
    if same(verb, b"poke") {
        Some(Command::Poke(at, n))
    } else if same(verb, b"put") {
        Some(Command::Ask(Call::Put(at, n)))
    } else {
        None
    }
}

// A verb with two words, of which the second stands for a number or for bytes or for both.
#[tactic(auto, unfolding(crate::specs::Commands::of_two))]
fn of_two(
    verb: &[u8],
    first: Option<usize>,
    second: Option<usize>,
    bytes: Option<usize>,
) -> Option<Command>
    ensures { result ≡ of_two verb.now first second bytes }
{
    if same(verb, b"name") {
        name_of(first, second)
    } else {
        of_bytes_at(verb, first?, bytes?)
    }
}

fn canonical_of(place: Option<usize>, offset: Option<usize>, room: Option<usize>) -> Option<Command>
    ensures { result ≡ canonical_by place offset room }
{
    Some(Command::Ask(Call::Canonical(place?, offset?, room?)))
}

#[tactic(auto, unfolding(crate::specs::Commands::of_three))]
fn of_three(
    verb: &[u8],
    first: Option<usize>,
    second: Option<usize>,
    third: Option<usize>,
) -> Option<Command>
    ensures { result ≡ of_three verb.now first second third }
{
    if same(verb, b"canonical") {
        canonical_of(first, second, third)
    } else {
        None
    }
}

// The command that the words of a line are, of which the last stands for these bytes.
fn of_words(line: &[u8], bytes: Option<usize>) -> Option<Command>
    ensures { result ≡ of_words (words_of line.now) bytes }
{
    let verb = word(line, 0);
    let first = decimal(word(line, 1));
    let second = decimal(word(line, 2));
    let third = decimal(word(line, 3));
    match word_count(line) {
        1 => of_none(verb),
        2 => of_one(verb, first, bytes),
        3 => of_two(verb, first, second, bytes),
        4 => of_three(verb, first, second, third),
        _ => None,
    }
}

// The last word of a line; of one that was cut, without a digit whose second is lost.
#[tactic(auto, unfolding(crate::specs::Commands::last_word))]
fn last_word(line: &[u8], cut: bool) -> &[u8]
    ensures { result.now ≡ last_word line.now cut }
{
    let last = word(line, word_count(line) - 1);
    if cut {
        &last[..last.len() / 2 * 2]
    } else {
        last
    }
}

// How long a call's text is, 0 where it has none.
fn text_length(call: Call) -> usize
    ensures { result ≡ text_length call }
{
    match call {
        Call::Put(_, n) | Call::Scan(n) => n,
        _ => 0,
    }
}

// A line that was cut is a command only where its text is too long already.
fn of_cut(command: Option<Command>) -> Option<Command>
    ensures { result ≡ of_cut command }
{
    match command {
        Some(Command::Ask(call)) if Scan::TEXT < text_length(call) => command,
        _ => None,
    }
}

// The command of a line; the bytes that its last word stands for go into the buffer.
#[tactic(auto, unfolding(crate::specs::Commands::command_of))]
pub fn command_of(line: &[u8], cut: bool, text: &mut [u8]) -> Option<Command>
    ensures { (result ≡ command_of line.now cut)
        × (text.new ≡ store text.old 0 (word_bytes (last_word line.now cut))) }
{
    let bytes = unhex(last_word(line, cut), text);
    let command = of_words(line, bytes);
    if cut { of_cut(command) } else { command }
}
