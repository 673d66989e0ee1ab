// What a number's bytes say.

// A number as it is written, before zig-zag is undone, and the place behind it.
pub type Number = Result<(u64, usize), NumberError>;

// Why there is no number: the input ends before its last group; it has too many groups, or does not fit its width.
#[derive(Clone, Copy, PartialEq, Eq)]
pub enum NumberError {
    Cut,
    Wrong,
}
