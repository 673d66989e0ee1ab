// What a schema at a place is.
ghost use Rattle.std.specs.Prelude.{◌≡◌, cond, None};
ghost use Rattle.answer.specs.declared.refusal.Why.TheVariants.{NotASchema};
ghost use Rattle.ground.specs.Bytes.{same};
ghost use Rattle.row.specs.declared.kind.Kind.TheVariants.{Reference};
ghost use Rattle.view.specs.Values.{shape_at};
ghost use Rattle.view.specs.Strings.{string_at};
ghost use Rattle.view.specs.Known.{Known};
ghost use Rattle.form.specs.declared.forms.Form.TheVariants as form;
ghost use Rattle.form.specs.Checks.{fault};
ghost use Rattle.form.specs.Spots.{is_text, is_array};
ghost use Rattle.form.specs.Forms.{word_kind, object_form, form_of, no_members, found, found_of};

use super::spots::{is_array, is_object, is_text};
use answer::{Fault, Why};
use ground::same;
use json_scan::Scan;
use row::Kind;
use view::{Members, literal, members_at, string_copy};

// A string, with the object whose `type` it is, if there is one; an array, map, record, enum or fixed by its object; a union by its bracket.
#[derive(Clone, Copy)]
pub enum Form {
    Word(usize, Option<usize>),
    ArrayOf(usize),
    MapOf(usize),
    UnionOf(usize),
    RecordOf(usize),
    EnumOf(usize),
    FixedOf(usize),
    Wrong(Fault),
}

impl Form {
    // So many schemas can stand in one another: one more than brackets may be open.
    pub const MOST_NESTED: usize = Scan::NESTING + 1;
}

// A form, with the members of the object that it goes by; with none where it goes by no object.
#[derive(Clone, Copy)]
pub struct Found {
    pub form: Form,
    pub members: Members,
}

// The kind of a word that can be one of two.
fn either(word: &[u8], one: &[u8], is: Kind, other: &[u8], or: Kind) -> Kind
    ensures { result ≡ cond (same word.now one.now) is (cond (same word.now other.now) or Reference) }
{
    if same(word, one) {
        return is;
    }
    if same(word, other) {
        return or;
    }
    Kind::Reference
}

// The kind of a word. Its length leaves two to compare it with. A match of the words was tried: it leaves a goal for each byte that may be
// another one, 39 of them.
fn kind_of(word: &[u8]) -> Kind
    ensures { result ≡ word_kind word.now }
{
    match word.len() {
        4 => either(word, b"null", Kind::Null, b"long", Kind::Long),
        5 => either(word, b"float", Kind::Float, b"bytes", Kind::Bytes),
        6 => either(word, b"double", Kind::Double, b"string", Kind::String),
        _ => either(word, b"boolean", Kind::Boolean, b"int", Kind::Int),
    }
}

// The kind that a string names.
pub fn word_kind(text: &[u8], ends: &[u16], at: usize) -> Kind
    requires { Known text.now ends.now }
    ensures { result ≡ word_kind (string_at text.now at) }
{
    if let Some(own) = literal(text, ends, at) {
        return kind_of(own);
    }
    let mut word: [u8; 16] = [0; 16];
    let n = string_copy(text, ends, at, &mut word);
    if 16 < n {
        return Kind::Reference;
    }
    kind_of(&word[0..n])
}

// The form of an object at `at`, whose `type` is the word, at `typed`.
// A match of the words was tried: it leaves a goal for each byte that may be another one, 24 of them.
#[tactic(auto, unfolding(crate::specs::Forms::object_form))]
fn form_of(word: &[u8], at: usize, typed: usize) -> Form
    ensures { result ≡ object_form word.now at typed }
{
    if same(word, b"record") {
        return Form::RecordOf(at);
    }
    if same(word, b"enum") {
        return Form::EnumOf(at);
    }
    if same(word, b"fixed") {
        return Form::FixedOf(at);
    }
    if same(word, b"array") {
        return Form::ArrayOf(at);
    }
    if same(word, b"map") {
        return Form::MapOf(at);
    }
    Form::Word(typed, Some(at))
}

// The form of the object at `at`, whose `type` is the string at `typed`.
fn object_form(text: &[u8], ends: &[u16], at: usize, typed: usize) -> Form
    requires { Known text.now ends.now }
    ensures { result ≡ object_form (string_at text.now typed) at typed }
{
    if let Some(own) = literal(text, ends, typed) {
        return form_of(own, at, typed);
    }
    let mut word: [u8; 16] = [0; 16];
    let n = string_copy(text, ends, typed, &mut word);
    if 16 < n {
        return Form::Word(typed, Some(at));
    }
    form_of(&word[0..n], at, typed)
}

// A form that goes by no object.
fn bare(form: Form) -> Found
    ensures { result ≡ found form no_members }
{
    Found {
        form,
        members: Members {
            typed: None,
            name: None,
            namespace: None,
            aliases: None,
            fields: None,
            symbols: None,
            default: None,
            size: None,
            items: None,
            values: None,
            logical_type: None,
            precision: None,
            scale: None,
        },
    }
}

fn wrong(why: Why, at: usize) -> Found
    ensures { result ≡ found (form.Wrong (fault why at)) no_members }
{
    bare(Form::Wrong(Fault { why, at }))
}

// The form of what is no object.
fn other_form(text: &[u8], at: usize) -> Found
    ensures { result ≡ found (cond (is_text (shape_at text.now at)) (form.Word at None) (cond (is_array (shape_at text.now at)) (form.UnionOf at) (form.Wrong (fault NotASchema at)))) no_members }
{
    if is_text(text, at) {
        return bare(Form::Word(at, None));
    }
    if is_array(text, at) {
        return bare(Form::UnionOf(at));
    }
    wrong(Why::NotASchema, at)
}

// What the schema at a place is: an object whose `type` is no string stands for the schema there.
pub fn find(text: &[u8], ends: &[u16], at: usize) -> Found
    requires { Known text.now ends.now }
    ensures { result ≡ found_of text.now (form_of text.now at) }
{
    let mut p = at;
    for _ in 0..Form::MOST_NESTED {
        if !is_object(text, p) {
            return other_form(text, p);
        }
        let members = members_at(text, ends, p);
        let typed = members.typed;
        let Some(q) = typed else {
            return wrong(Why::TypeMissing, p);
        };
        if is_text(text, q) {
            let form = object_form(text, ends, p, q);
            return Found { form, members };
        }
        p = q;
    }
    wrong(Why::NestedTooDeep, p)
}
