// The words of a line.
ghost use Rattle.std.specs.Prelude.{◌≡◌, length};
ghost use Rattle.script.specs.Words.{words_of, word_at};

// Word n of a line, counted from 0; empty where there is none.
pub fn word(line: &[u8], n: usize) -> &[u8]
    ensures { result.now ≡ word_at line.now n }
{
    line.split(|b| *b == b' ').nth(n).unwrap_or(b"")
}

// How many words a line has: one more than spaces.
pub fn word_count(line: &[u8]) -> usize
    ensures { result ≡ length (words_of line.now) }
{
    line.split(|b| *b == b' ').count()
}
