// A table of the marks of strings, in lent memory of any size, zeros at first. A string that is not marked is surely new; one that is has to be
// looked for.
#![tactic(auto)]

ghost use Rattle.std.specs.Prelude.{◌≡◌, ◌<◌, ◌≤◌, length};
ghost use Rattle.seen.specs.Seen.{span, Sized, place_in, next_of, free_place, is_marked, entered};

use json_scan::Scan;

// A mark is looked for at the places of numbers below this.
const SPAN: u64 = 4294967296;

// A name takes four bytes of a text at least, its quotes and a comma with it: a table has a place for every four bytes.
pub const SHARE: usize = 4;

// Below so many bytes of text a table is emptied in part.
const FEW: usize = 1024;

const SOME: usize = 4096;

const MANY: usize = 8192;

// The place of a number in a table of so many places.
fn place(size: usize, x: u64) -> usize
    requires { (0 < size) × (size < span) × (x < span) }
    ensures { (result ≡ place_in size x) × (result < size) }
{
    (x * size as u64 / SPAN) as usize
}

// The next number, an odd number of places on.
fn next(size: usize, mark: u64, x: u64) -> u64
    requires { (0 < size) × (x < span) }
    ensures { (result ≡ next_of size mark x) × (result < span) }
{
    let distance = (mark / 65536 % 4096 * 2 + 1) * (SPAN / size as u64);
    (x + distance) % SPAN
}

// The empty place where a mark that is not there can be entered; none where it is there, or where that is not known.
fn free_place(table: &[u64], mark: u64) -> Option<usize>
    requires { Sized table.now }
    ensures { result ≡ free_place table.now mark }
{
    if mark == 0 {
        return None;
    }
    let mut x = mark / SPAN % SPAN;
    for _turn in 0..table.len() {
        let at = place(table.len(), x);
        let held = table[at];
        if held == mark {
            return None;
        }
        if held == 0 {
            return Some(at);
        }
        x = next(table.len(), mark, x);
    }
    None
}

// Enters a mark. Was it there, or is that not known?
pub fn enter(table: &mut [u64], mark: u64) -> bool
    requires { Sized table.old }
    ensures { (result ≡ is_marked table.old mark) × (table.new ≡ entered table.old mark) }
{
    match free_place(table, mark) {
        None => true,
        Some(at) => {
            table[at] = mark;
            false
        }
    }
}

// How many places the names of so many bytes of text need.
fn needed(bytes: usize) -> usize
    ensures { 0 < result }
{
    match bytes {
        0..FEW => FEW / SHARE,
        FEW..SOME => SOME / SHARE,
        SOME..MANY => MANY / SHARE,
        _ => Scan::TEXT / SHARE,
    }
}

// Empties the first places of the table, as many as the names of so many bytes of text need, or all.
pub fn forget(table: &mut [u64], bytes: usize) -> usize
    requires { Sized table.old }
    ensures { (0 < result) × (result ≤ length table.new) × (length table.new ≡ length table.old) }
{
    let n = needed(bytes).min(table.len());
    table[..n].fill(0);
    n
}
