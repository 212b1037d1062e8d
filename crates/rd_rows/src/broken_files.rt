//! Application files that are damaged: each is refused by its fault, wherever the damage is.

use crate::programs::{assert_ending, run_file};
use crate::refused_files::{LIMIT, NAME, NOT_JSON, RefusedFile, SHAPE, assert_refused};
use std::test::Fail;

// A file that is an application.
const WHOLE: &str =
    r#"{"profile":1,"cores":1,"tasks":[{"name":"t0","priority":1,"code":["end"]}]}"#;

// Files that are JSON, and no application.
const DAMAGED: [RefusedFile; 6] = [
    RefusedFile {
        text: "[]",
        errors: SHAPE,
    },
    RefusedFile {
        text: r#"{"profile":3,"cores":1,"tasks":[{"name":"t0","priority":1,"code":["end"]}]}"#,
        errors: LIMIT,
    },
    RefusedFile {
        text: r#"{"profile":1,"cores":1.5,"tasks":[{"name":"t0","priority":1,"code":["end"]}]}"#,
        errors: SHAPE,
    },
    RefusedFile {
        text: concat!(
            r#"{"profile":1,"cores":1,"x":1,"#,
            r#""tasks":[{"name":"t0","priority":1,"code":["end"]}]}"#
        ),
        errors: SHAPE,
    },
    RefusedFile {
        text: r#"{"profile":1,"cores":1,"tasks":[{"name":"é","priority":1,"code":["end"]}]}"#,
        errors: NAME,
    },
    RefusedFile {
        text: r#"{"profile":1,"cores":1,"tasks":[{"name":"t0","priority":1,"code":[]}]}"#,
        errors: LIMIT,
    },
];

// Wherever the file ends before its end, it is no JSON. (No byte of it is the first such place.)
// Shows `read_app`: `exact`.
#[test]
fn cut_off(rt: HostRuntime) -> Result<(), Fail> {
    let whole = WHOLE.as_bytes();
    for len in 0..whole.len() {
        let ending = run_file(&rt, "cut.json", &whole[..len], &[], "step 0\n")?;
        assert_ending(&rt, &ending, 1, "", NOT_JSON);
    }
    let ending = run_file(&rt, "cut.json", whole, &[], "step 0\n")?;
    assert_ending(&rt, &ending, 0, "ok at 1\n", "");
    Ok(())
}

// Wherever a byte that no text has stands in the place of another, the file is no JSON. Shows
// `read_app`: `exact`, `memory_text`.
#[test]
fn no_text(rt: HostRuntime) -> Result<(), Fail> {
    let whole = WHOLE.as_bytes();
    for place in 0..whole.len() {
        let mut bytes = Vec::with_capacity(rt.alloc(), whole.len())?;
        bytes.extend_from_slice(whole)?;
        bytes[place] = 0xff;
        let ending = run_file(&rt, "bytes.json", bytes.as_slice(), &[], "step 0\n")?;
        assert_ending(&rt, &ending, 1, "", NOT_JSON);
    }
    Ok(())
}

// Arrays in arrays, more deeply than the reader of JSON goes. Shows `read_app`: `exact`.
#[test]
fn nested(rt: HostRuntime) -> Result<(), Fail> {
    let mut text = vec![in rt.alloc(); b'['; 200]?;
    for _bracket in 0..200 {
        text.push(b']')?;
    }
    let ending = run_file(&rt, "nested.json", text.as_slice(), &[], "step 0\n")?;
    assert_ending(&rt, &ending, 1, "", NOT_JSON);
    Ok(())
}

// A file that is JSON and no application is refused by its first fault. Shows `read_app`: `exact`.
#[test]
fn damaged(rt: HostRuntime) -> Result<(), Fail> {
    assert_refused(&rt, &DAMAGED)
}
