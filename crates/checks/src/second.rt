// A second computation of what the readers answer: a string is taken apart at its first separator,
// and the place of a refusal is found by completing each prefix and trying again.
use std::alloc::{AllocError, Global};
use text::{FeatureString, Piece, StringFault};

fn is_name(text: &[u8]) -> bool {
    text.len() <= 64
        && text.first().is_some_and(|b| !b"-+.".contains(b))
        && text
            .iter()
            .all(|b| b.is_ascii_alphanumeric() || b"_-+.".contains(b))
}

// The bytes at a place of a string as a piece of it, if they are a name.
fn name_at<'a>(at: usize, bytes: &'a [u8]) -> Option<Piece<'a>> {
    is_name(bytes).then_some(Piece { at, bytes })
}

// The form of two names with a slash between them.
fn joined<'a>(before: &'a [u8], after: &'a [u8]) -> Option<FeatureString<'a>> {
    let feature = name_at(before.len().saturating_add(1), after)?;
    match before.strip_suffix(b"?") {
        Some(name) => Some(FeatureString::Weak {
            dependency: name_at(0, name)?,
            feature,
        }),
        None => Some(FeatureString::Strong {
            dependency: name_at(0, before)?,
            feature,
        }),
    }
}

// The form of a lawful string.
fn form<'a>(text: &'a [u8]) -> Option<FeatureString<'a>> {
    if let Some(name) = text.strip_prefix(b"dep:") {
        return Some(FeatureString::Switch {
            dependency: name_at(4, name)?,
        });
    }
    match text.iter().position(|b| *b == b'/') {
        Some(slash) => joined(&text[..slash], &text[slash + 1..]),
        None => Some(FeatureString::Plain {
            feature: name_at(0, text)?,
        }),
    }
}

// Whether the text with one of these completions is lawful.
fn completes(heap: Global, text: &[u8]) -> Result<bool, AllocError> {
    for more in [&b""[..], b"a", b"/a"] {
        if form([text, more].concat(heap)?.as_slice()).is_some() {
            return Ok(true);
        }
    }
    Ok(false)
}

// The length of the longest prefix that begins some lawful string.
fn longest_begun(heap: Global, text: &[u8]) -> Result<usize, AllocError> {
    for len in (0..=text.len()).rev() {
        if completes(heap, &text[..len])? {
            return Ok(len);
        }
    }
    Ok(0)
}

// What is to be answered of a feature string: the inner result. The outer one is that of the program's own memory.
pub fn of_string<'a>(
    heap: Global,
    text: &'a [u8],
) -> Result<Result<FeatureString<'a>, StringFault>, AllocError> {
    match form(text) {
        Some(form) => Ok(Ok(form)),
        None => {
            let prefix = longest_begun(heap, text)?;
            Ok(Err(StringFault::NoForm { prefix }))
        }
    }
}

// What is to be answered of a name.
pub fn of_name<'a>(text: &'a [u8]) -> Result<Piece<'a>, StringFault> {
    name_at(0, text).ok_or_else(|| {
        let prefix = (0..=text.len())
            .rev()
            .find(|len| text.get(..*len).is_some_and(is_name))
            .unwrap_or(0);
        StringFault::NoName { prefix }
    })
}
