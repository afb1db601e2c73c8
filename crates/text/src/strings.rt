// The reader of feature strings.
ghost use Rattle.std.specs.Prelude.{◌≡◌, ◌≤◌, length};
ghost use Rattle.text.specs.Laws.{FormLaw};
ghost use Rattle.text.specs.Readers.{spells_dep, step, piece_from, piece_before, finish, Room, read_form};
ghost use Rattle.text.specs.Views.{map_ok, piece, form};

use crate::faults::StringFault;
use crate::limits::MAX_NAME_BYTES;
use crate::pieces::{FeatureString, Piece};

// What stands before the last name: `dep:`, or the first name with `/` or `?/`.
#[derive(Clone, Copy)]
enum Separator {
    Switch,
    Strong,
    Weak,
}

// Where the reader stands.
#[derive(Clone, Copy)]
enum State {
    // nothing is read
    Start,
    // in the first name: how many bytes of it are read, and whether they begin the word dep
    First(usize, bool),
    // after the first name, which has so many bytes, and `?`
    AfterQuestion(usize),
    // before the last name: the separator, and how many bytes the first name has, or `dep`
    BeforeLast(Separator, usize),
    // in the last name: the same, and how many bytes of the last name are read
    Last(Separator, usize, usize),
}

// Whether `c` is the letter of the word dep at the place `len`, where `dep` says that those before it are there.
fn spells_dep(dep: bool, len: usize, c: char) -> bool
    ensures { result ≡ spells_dep dep len c }
{
    matches!(
        (dep, len, c),
        (true, 0, 'd') | (true, 1, 'e') | (true, 2, 'p')
    )
}

// The state after `c`, or none where no lawful string goes on so.
fn step(state: State, c: char) -> Option<State>
    ensures { result ≡ step state c }
{
    match (state, c) {
        (State::Start, initial!()) => Some(State::First(1, spells_dep(true, 0, c))),
        (State::First(len @ 0..MAX_NAME_BYTES, dep), inner!()) => Some(State::First(
            len + 1,
            spells_dep(dep, len, c),
        )),
        (State::First(3, true), ':') => Some(State::BeforeLast(Separator::Switch, 3)),
        (State::First(len, _), '/') => Some(State::BeforeLast(Separator::Strong, len)),
        (State::First(len, _), '?') => Some(State::AfterQuestion(len)),
        (State::AfterQuestion(first_len), '/') => Some(State::BeforeLast(
            Separator::Weak,
            first_len,
        )),
        (State::BeforeLast(separator, first_len), initial!()) => Some(State::Last(
            separator, first_len, 1,
        )),
        (State::Last(separator, first_len, len @ 0..MAX_NAME_BYTES), inner!()) => Some(State::Last(
            separator,
            first_len,
            len + 1,
        )),
        _ => None,
    }
}

// The piece of a string before a place.
fn piece_before<'a>(text: &'a [u8], at: usize) -> Piece<'a>
    requires { at ≤ length text.now }
    ensures { piece result ≡ piece_before at text.now }
{
    Piece {
        at: 0,
        bytes: &text[..at],
    }
}

// The piece of a string from a place on.
fn piece_from<'a>(text: &'a [u8], at: usize) -> Piece<'a>
    requires { at ≤ length text.now }
    ensures { piece result ≡ piece_from at text.now }
{
    Piece {
        at,
        bytes: &text[at..],
    }
}

// The name after `dep:`.
fn name_after_dep<'a>(text: &'a [u8]) -> Piece<'a>
    requires { 4 ≤ length text.now }
    ensures { piece result ≡ piece_from 4 text.now }
{
    match text {
        [_d, _e, _p, _colon, name @ ..] => Piece { at: 4, bytes: name },
        _ => unreachable(),
    }
}

// What is answered where the string ends.
fn finish<'a>(state: State, text: &'a [u8]) -> Result<FeatureString<'a>, StringFault>
    requires { Room state (length text.now) }
    ensures { map_ok form result ≡ finish state text.now }
{
    match state {
        State::First(_len, _dep) => {
            let feature = Piece { at: 0, bytes: text };
            Ok(FeatureString::Plain { feature })
        }
        State::Last(Separator::Switch, _first_len, _len) => {
            let dependency = name_after_dep(text);
            Ok(FeatureString::Switch { dependency })
        }
        State::Last(Separator::Strong, first_len, _len) => {
            let dependency = piece_before(text, first_len);
            let feature = piece_from(text, first_len + 1);
            Ok(FeatureString::Strong {
                dependency,
                feature,
            })
        }
        State::Last(Separator::Weak, first_len, _len) => {
            let dependency = piece_before(text, first_len);
            let feature = piece_from(text, first_len + 2);
            Ok(FeatureString::Weak {
                dependency,
                feature,
            })
        }
        State::Start | State::AfterQuestion(_) | State::BeforeLast(_, _) => {
            let prefix = text.len();
            Err(StringFault::NoForm { prefix })
        }
    }
}

/// Reads a feature string: its form, and its names with their places in it. A string of no form is refused, with the
/// length of its longest prefix that begins some feature string.
pub fn read_feature_string<'a>(text: &'a [u8]) -> Result<FeatureString<'a>, StringFault>
    ensures value { map_ok form result ≡ read_form text.now }
    ensures law { FormLaw text.now (map_ok form result) }
{
    let mut state = State::Start;
    for (at, b) in text.iter().enumerate() {
        state = step(state, char::from(*b)).ok_or(StringFault::NoForm { prefix: at })?;
    }
    finish(state, text)
}
