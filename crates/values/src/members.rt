// The value under a key of an object: of several the last counts.
ghost use Rattle.std.specs.Prelude.{◌≡◌};
ghost use Rattle.view.specs.Known.{Known};
ghost use Rattle.view.specs.Strings.{string_at};
ghost use Rattle.view.specs.Members.{member};

use view::{Member, first_member, next_member, string_is, strings_same};

// The value under the word in the object at `at`.
pub fn under_word(text: &[u8], ends: &[u16], at: usize, word: &[u8]) -> Option<usize>
    requires { Known text.now ends.now }
    ensures { result ≡ member text.now at word.now }
{
    let mut found = None;
    let mut entry = first_member(text, ends, at);
    while let Some(Member { key, value }) = entry {
        if string_is(text, ends, key, word) {
            found = Some(value);
        }
        entry = next_member(text, ends, value);
    }
    found
}

// The value under the key that stands at a place, in the object at `at`.
pub fn under_key(text: &[u8], ends: &[u16], at: usize, place: usize) -> Option<usize>
    requires { Known text.now ends.now }
    ensures { result ≡ member text.now at (string_at text.now place) }
{
    let mut found = None;
    let mut entry = first_member(text, ends, at);
    while let Some(Member { key, value }) = entry {
        if strings_same(text, ends, key, place) {
            found = Some(value);
        }
        entry = next_member(text, ends, value);
    }
    found
}
