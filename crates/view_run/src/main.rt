// Reads JSON texts, a line of hex each, and writes what the views say of the text's value and, indented, of each of its
// elements or named members.
#![tactic(auto)]

ghost use Rattle.std.specs.Prelude.{◌≤◌, length};
ghost use Rattle.json_scan.specs.Json.{longest};
ghost use Rattle.view.specs.Known.{Known};

use ground::byte_at;
use script::hex::nibble;
use script::input::read_full;
use std::io;
use std::io::Stdout;
use view::{Members, Shape};

// The bytes of the line at `at`; returns how many there are.
fn unhex(input: &[u8], at: usize, out: &mut [u8; 1024]) -> usize
    requires { at ≤ 65536 }
    ensures { result ≤ 1024 }
{
    for i in 0..1024 {
        let p = at + 2 * i;
        let b = byte_at(input, p);
        if b < b'0' {
            return i;
        }
        out[i] = nibble(b) * 16 + nibble(byte_at(input, p + 1));
    }
    1024
}

fn print_bytes(stdout: Stdout, s: &[u8]) -> io::Result<()> {
    for b in s {
        print!(stdout; "{b:02x}")?;
    }
    Ok(())
}

fn print_number(stdout: Stdout, n: usize) -> io::Result<()> {
    print!(stdout; " {n}")
}

fn print_flag(stdout: Stdout, flag: bool) -> io::Result<()> {
    let word = if flag { "yes" } else { "no" };
    print!(stdout; " {word}")
}

fn print_spot(stdout: Stdout, s: Option<usize>) -> io::Result<()> {
    match s {
        Some(p) => print_number(stdout, p),
        None => print!(stdout; " -"),
    }
}

// The length of the string, and its first 16 bytes.
fn print_string(stdout: Stdout, text: &[u8], ends: &[u16], at: usize) -> io::Result<()>
    requires { Known text.now ends.now }
{
    let mut out = [0u8; 16];
    let n = view::string_copy(text, ends, at, &mut out);
    print_number(stdout, view::string_length(text, at))?;
    print!(stdout; " ")?;
    print_bytes(stdout, &out[..n.min(16)])?;
    print_flag(stdout, view::string_is(text, ends, at, b"record"))
}

fn print_size(stdout: Stdout, s: Option<u64>) -> io::Result<()> {
    match s {
        Some(v) => print!(stdout; " {v}"),
        None => print!(stdout; " -"),
    }
}

// The values that an object has a view of.
fn spots(m: Members) -> [Option<usize>; 13] {
    [
        m.typed,
        m.name,
        m.namespace,
        m.aliases,
        m.fields,
        m.symbols,
        m.default,
        m.size,
        m.items,
        m.values,
        m.logical_type,
        m.precision,
        m.scale,
    ]
}

fn print_members(stdout: Stdout, m: Members) -> io::Result<()> {
    for spot in spots(m) {
        print_spot(stdout, spot)?;
    }
    Ok(())
}

fn print_same(
    stdout: Stdout,
    text: &[u8],
    ends: &[u16],
    first: Option<usize>,
    p: usize,
) -> io::Result<()>
    requires { Known text.now ends.now }
{
    match first {
        Some(q) => print_flag(stdout, view::strings_same(text, ends, q, p)),
        None => Ok(()),
    }
}

// Each element, and whether it is the same string as the first.
fn print_elements(stdout: Stdout, text: &[u8], ends: &[u16], at: usize) -> io::Result<()>
    requires { Known text.now ends.now }
{
    let first = view::first_element(text, at);
    let mut spot = first;
    while let Some(p) = spot {
        print_number(stdout, p)?;
        print_same(stdout, text, ends, first, p)?;
        spot = view::next_element(text, ends, p);
    }
    Ok(())
}

fn print_value(stdout: Stdout, text: &[u8], ends: &[u16], at: usize) -> io::Result<()>
    requires { Known text.now ends.now }
{
    print_number(stdout, at)?;
    print_number(stdout, view::end(text, ends, at))?;
    match view::shape_at(text, at) {
        Shape::Text => {
            print!(stdout; " string")?;
            print_string(stdout, text, ends, at)?;
        }
        Shape::Number => {
            print!(stdout; " number")?;
            print_size(stdout, view::size_literal(text, at))?;
        }
        Shape::Object => {
            print!(stdout; " object")?;
            print_members(stdout, view::members_at(text, ends, at))?;
        }
        Shape::Array => {
            print!(stdout; " array")?;
            print_elements(stdout, text, ends, at)?;
        }
        Shape::Word => {
            print!(stdout; " word")?;
        }
        Shape::Nothing => {
            print!(stdout; " nothing")?;
        }
    }
    println!(stdout)
}

fn print_inner(stdout: Stdout, text: &[u8], ends: &[u16], s: Option<usize>) -> io::Result<()>
    requires { Known text.now ends.now }
{
    match s {
        Some(p) => {
            print!(stdout; " ")?;
            print_value(stdout, text, ends, p)
        }
        None => Ok(()),
    }
}

fn print_all_elements(stdout: Stdout, text: &[u8], ends: &[u16], at: usize) -> io::Result<()>
    requires { Known text.now ends.now }
{
    let mut spot = view::first_element(text, at);
    while let Some(p) = spot {
        print_inner(stdout, text, ends, spot)?;
        spot = view::next_element(text, ends, p);
    }
    Ok(())
}

fn print_all_members(stdout: Stdout, text: &[u8], ends: &[u16], m: Members) -> io::Result<()>
    requires { Known text.now ends.now }
{
    for spot in spots(m) {
        print_inner(stdout, text, ends, spot)?;
    }
    Ok(())
}

fn print_views(stdout: Stdout, text: &[u8], ends: &[u16]) -> io::Result<()>
    requires { Known text.now ends.now }
{
    let at = view::value_start(text);
    print_value(stdout, text, ends, at)?;
    print_all_elements(stdout, text, ends, at)?;
    print_all_members(stdout, text, ends, view::members_at(text, ends, at))
}

// The views of a text, with a table of its ends.
fn print_text(stdout: Stdout, text: &[u8]) -> io::Result<()>
    requires { length text.now ≤ longest }
{
    let mut table = [0u16; 1024];
    view::find_ends(text, &mut table);
    print_views(stdout, text, &table)
}

fn main(rt: HostRuntime) -> io::Result<()> {
    let stdout = rt.stdout();
    let mut input = [0u8; 65536];
    let n = read_full(&mut rt.stdin(), &mut input)?;
    let mut text = [0u8; 1024];
    let mut p = 0;
    // Each turn goes on by the length of a line, so no range fits.
    while p < n {
        let m = unhex(&input, p, &mut text);
        print_text(stdout, &text[..m])?;
        p += 2 * m + 1;
    }
    Ok(())
}
