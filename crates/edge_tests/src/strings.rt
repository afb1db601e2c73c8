// Strings at the edges of the grammar, with the answers that it gives them.
use std::process::Abort;
use text::{FeatureString, Piece, StringFault, read_feature_string, read_name};

const LETTERS_64: &[u8] = b"aaaaaaaaaaaaaaaaaaaaaaaaaaaaaaaaaaaaaaaaaaaaaaaaaaaaaaaaaaaaaaaa";

const LETTERS_65: &[u8] = b"aaaaaaaaaaaaaaaaaaaaaaaaaaaaaaaaaaaaaaaaaaaaaaaaaaaaaaaaaaaaaaaaa";

const DEP_64: &[u8] = b"dep:aaaaaaaaaaaaaaaaaaaaaaaaaaaaaaaaaaaaaaaaaaaaaaaaaaaaaaaaaaaaaaaa";

const DEP_65: &[u8] = b"dep:aaaaaaaaaaaaaaaaaaaaaaaaaaaaaaaaaaaaaaaaaaaaaaaaaaaaaaaaaaaaaaaaa";

const STRONG_65: &[u8] = b"n/aaaaaaaaaaaaaaaaaaaaaaaaaaaaaaaaaaaaaaaaaaaaaaaaaaaaaaaaaaaaaaaaa";

const WEAK_64: &[u8] = b"aaaaaaaaaaaaaaaaaaaaaaaaaaaaaaaaaaaaaaaaaaaaaaaaaaaaaaaaaaaaaaaa?/g";

// A string, and its form.
type Row<'a> = (&'a [u8], FeatureString<'a>);

// So many bytes of a string, from a place on.
fn piece<'a>(text: &'a [u8], at: usize, len: usize) -> Piece<'a> {
    let bytes = text.get(at..at.saturating_add(len)).unwrap_or(&[]);
    Piece { at, bytes }
}

fn plain<'a>(text: &'a [u8], len: usize) -> Row<'a> {
    let feature = piece(text, 0, len);
    (text, FeatureString::Plain { feature })
}

fn switch<'a>(text: &'a [u8], len: usize) -> Row<'a> {
    let dependency = piece(text, 4, len);
    (text, FeatureString::Switch { dependency })
}

fn strong<'a>(text: &'a [u8], cut: usize, at: usize, len: usize) -> Row<'a> {
    let dependency = piece(text, 0, cut);
    let feature = piece(text, at, len);
    (
        text,
        FeatureString::Strong {
            dependency,
            feature,
        },
    )
}

fn weak<'a>(text: &'a [u8], cut: usize, at: usize, len: usize) -> Row<'a> {
    let dependency = piece(text, 0, cut);
    let feature = piece(text, at, len);
    (
        text,
        FeatureString::Weak {
            dependency,
            feature,
        },
    )
}

#[test]
fn forms(rt: HostRuntime) {
    let table = [
        plain(b"a", 1),
        plain(b"dep", 3),
        plain(b"de", 2),
        strong(b"dep/x", 3, 4, 1),
        weak(b"dep?/x", 3, 5, 1),
        switch(b"dep:x", 1),
        switch(b"dep:dep", 3),
        strong(b"9.+-/_-", 4, 5, 2),
        plain(LETTERS_64, 64),
        switch(DEP_64, 64),
        weak(WEAK_64, 64, 66, 1),
    ];
    for (text, form) in table {
        assert_eq!(rt; read_feature_string(text), Ok(form));
    }
}

#[test]
fn refusals(rt: HostRuntime) {
    let table: [(&[u8], usize); 17] = [
        (b"", 0),
        (b"a?", 2),
        (b"a??", 2),
        (b"dep:a/b", 5),
        (b"dep:", 4),
        (b"dep::", 4),
        (b"Dep:a", 3),
        (b"dEp:a", 3),
        (b"xdep:a", 4),
        (b"depx:a", 4),
        (b"a/b/c", 3),
        (b"a/", 2),
        (b"a?/", 3),
        (b"a/-", 2),
        (LETTERS_65, 64),
        (DEP_65, 68),
        (STRONG_65, 66),
    ];
    for (text, prefix) in table {
        assert_eq!(rt;
            read_feature_string(text),
            Err(StringFault::NoForm { prefix })
        );
    }
}

// A byte alone, and as the second one after a letter: where each is refused, or that it is not.
#[test]
fn bytes(rt: HostRuntime) {
    let table: [(u8, Option<usize>, Option<usize>); 14] = [
        (0x2E, Some(0), None),
        (0x2F, Some(0), Some(2)),
        (0x30, None, None),
        (0x39, None, None),
        (0x3A, Some(0), Some(1)),
        (0x3F, Some(0), Some(2)),
        (0x40, Some(0), Some(1)),
        (0x5B, Some(0), Some(1)),
        (0x60, Some(0), Some(1)),
        (0x7B, Some(0), Some(1)),
        (0x7F, Some(0), Some(1)),
        (0x80, Some(0), Some(1)),
        (0xE9, Some(0), Some(1)),
        (0xFF, Some(0), Some(1)),
    ];
    for (byte, alone, after) in table {
        check(&rt, &[byte], alone);
        check(&rt, &[b'a', byte], after);
    }
}

// Whether a string is refused at that place, or else is the name of a feature.
fn check(rt: &impl Abort, text: &[u8], refused: Option<usize>) {
    let answer = match refused {
        Some(prefix) => Err(StringFault::NoForm { prefix }),
        None => Ok(plain(text, text.len()).1),
    };
    assert_eq!(rt; read_feature_string(text), answer);
}

// A string, and what is answered of it as a name.
type NameRow<'a> = (&'a [u8], Result<Piece<'a>, StringFault>);

fn no_name<'a>(text: &'a [u8], prefix: usize) -> NameRow<'a> {
    (text, Err(StringFault::NoName { prefix }))
}

fn name<'a>(text: &'a [u8], len: usize) -> NameRow<'a> {
    (text, Ok(piece(text, 0, len)))
}

#[test]
fn names(rt: HostRuntime) {
    let table = [
        no_name(b"", 0),
        no_name(b"-a", 0),
        no_name(b"a/b", 1),
        no_name(b"a?", 1),
        no_name(b"dep:a", 3),
        no_name(b"a\xFF", 1),
        no_name(LETTERS_65, 64),
        name(LETTERS_64, 64),
        name(b"0", 1),
        name(b"_-+.", 4),
    ];
    for (text, answer) in table {
        assert_eq!(rt; read_name(text), answer);
    }
}
