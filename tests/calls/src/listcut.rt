//! Runs over readers and writers in memory.
mod devices;

use listcut_rows::command::run;
use listcut_rows::error::ListcutError;
use listcut_rows::input::read_rows;
use listcut_rows::output::write_rows;
use std::alloc::{AllocError, Global};
use std::test::*;

const ROWS: &str = "[1,2]\nnull\n[]\n[3,null]\n";

fn arguments_of(alloc: Global, words: &[&str]) -> Result<Vec<String>, AllocError> {
    let mut all = Vec::new(alloc);
    for word in words {
        all.push(String::from_str(alloc, word)?)?;
    }
    Ok(all)
}

/// What a run with these words writes for this input.
fn cut(alloc: Global, words: &[&str], input: &str) -> Result<Vec<u8>, ListcutError> {
    let words = arguments_of(alloc, words)?;
    let mut reader = input.as_bytes();
    let mut out = Vec::new(alloc);
    run(alloc, &words, &mut reader, &mut out)?;
    Ok(out)
}

#[test]
fn slices_rows(rt: HostRuntime) -> Result<(), Fail> {
    for (offset, len, input, want) in [
        ("1", "2", ROWS, "null\n[]\n"),
        ("0", "4", ROWS, ROWS),
        ("4", "0", ROWS, ""),
        ("0", "1", "[1]", "[1]\n"),
        ("0", "0", "", ""),
        (
            "0",
            "1",
            "[-9223372036854775808]\n",
            "[-9223372036854775808]\n",
        ),
        (
            "0",
            "1",
            "[9223372036854775807,0,-1]\n",
            "[9223372036854775807,0,-1]\n",
        ),
    ] {
        let out = cut(rt.alloc(), &[offset, len], input)?;
        assert!(rt; out.as_slice() == want.as_bytes(), "{offset} {len}");
    }
    Ok(())
}

#[test]
fn accepts_rows(rt: HostRuntime) -> Result<(), Fail> {
    for (words, input, want) in [
        (["take", "3", "0"].as_slice(), ROWS, "[3,null]\n[1,2]\n"),
        (["take"].as_slice(), ROWS, ""),
        (
            ["take", "1", "0", "0", "1"].as_slice(),
            ROWS,
            "null\n[1,2]\n[1,2]\nnull\n",
        ),
        (
            ["take", "1", "0"].as_slice(),
            "[7]\n[-8,9]",
            "[-8,9]\n[7]\n",
        ),
        (["take"].as_slice(), "", ""),
    ] {
        let out = cut(rt.alloc(), words, input)?;
        assert!(rt; out.as_slice() == want.as_bytes(), "{want}");
    }
    Ok(())
}

#[test]
fn rejects_indices(rt: HostRuntime) {
    for (words, want) in [
        (["take", "4"], ListcutError::Range),
        (["take", "18446744073709551615"], ListcutError::Range),
        (["take", "x"], ListcutError::Arguments),
        (["take", "01"], ListcutError::Arguments),
        (["take", "18446744073709551616"], ListcutError::Arguments),
        (["taken", "1"], ListcutError::Arguments),
        (["1", "take"], ListcutError::Arguments),
    ] {
        assert!(rt; cut(rt.alloc(), &words, ROWS).err() == Some(want));
    }
    let error = cut(rt.alloc(), &["take", "9"], "[1,2]\n[3").err();
    assert!(rt; error == Some(ListcutError::Line(2)));
}

#[test]
fn rejects_arguments(rt: HostRuntime) {
    for words in [
        ["", "1"],
        ["00", "1"],
        ["+1", "1"],
        ["-1", "1"],
        ["1 ", "1"],
        ["1", "18446744073709551616"],
    ] {
        assert!(rt; cut(rt.alloc(), &words, ROWS).err() == Some(ListcutError::Arguments));
    }
    assert!(rt; cut(rt.alloc(), &["1"], ROWS).err() == Some(ListcutError::Arguments));
    assert!(rt; cut(rt.alloc(), &["1", "1", "1"], ROWS).err() == Some(ListcutError::Arguments));
}

#[test]
fn rejects_lines_and_ranges(rt: HostRuntime) {
    for (len, input, want) in [
        ("1", "[1, 2]", ListcutError::Line(1)),
        ("1", "[9223372036854775808]", ListcutError::Line(1)),
        ("1", "[-0]", ListcutError::Line(1)),
        ("1", "[01]", ListcutError::Line(1)),
        ("1", "[1,]", ListcutError::Line(1)),
        ("9", "[1,2]\n[3", ListcutError::Line(2)),
        ("1", "null\n\n", ListcutError::Line(2)),
        ("5", ROWS, ListcutError::Range),
        ("18446744073709551615", ROWS, ListcutError::Range),
    ] {
        let error = cut(rt.alloc(), &["0", len], input).err();
        assert!(rt; error == Some(want), "{input}");
    }
    assert!(rt; cut(rt.alloc(), &["3", "2"], ROWS).err() == Some(ListcutError::Range));
}

#[test]
fn rows_are_arrays(rt: HostRuntime) -> Result<(), Fail> {
    let rows = read_rows(rt.alloc(), ROWS.as_bytes())?;
    assert!(rt; rows.len() == 4);
    assert!(rt; rows.is_null(1) && !rows.is_null(2));
    let mut out = Vec::new(rt.alloc());
    let written = write_rows(rt.alloc(), &rows, &mut out);
    written?;
    assert!(rt; out.as_slice() == ROWS.as_bytes());
    Ok(())
}

#[test]
fn errors_are_printed(rt: HostRuntime) -> Result<(), Fail> {
    for (error, want) in [
        (ListcutError::Arguments, "listcut: arguments"),
        (ListcutError::Input, "listcut: input"),
        (ListcutError::Line(7), "listcut: line 7"),
        (ListcutError::Range, "listcut: range"),
        (ListcutError::Size, "listcut: size"),
        (ListcutError::Output, "listcut: output"),
        (ListcutError::Memory, "listcut: memory"),
    ] {
        let text = format!(in rt.alloc(); "{error}")?;
        assert!(rt; text.as_str() == want);
    }
    Ok(())
}
