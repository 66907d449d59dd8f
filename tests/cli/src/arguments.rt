//! Command lines.
use clap::error::ErrorKind;
use cli_args::{
    ColumnNames, ColumnNamesError, Command, Error, Format, ParseColumnNamesError, Selection,
    format_of, name_lines, parse_arguments, parse_column_names,
};
use std::alloc::{AllocError, Global};
use std::test::*;

/// Returns the words of a command line, the name of the program first.
fn words(alloc: Global, arguments: &[&str]) -> Result<Vec<String>, AllocError> {
    let mut all = Vec::new(alloc);
    all.push(String::from_str(alloc, "nest")?)?;
    for argument in arguments {
        all.push(String::from_str(alloc, argument)?)?;
    }
    Ok(all)
}

/// Returns the error of a command line.
fn error_of(alloc: Global, arguments: &[&str]) -> Result<Error, Fail> {
    let all = words(alloc, arguments)?;
    match parse_arguments(alloc, &all) {
        Ok(_) => Err(Fail::from("arguments")),
        Err(error) => Ok(error),
    }
}

/// Returns the slice of the rows that a command selects of the file `f`.
fn slice_of(alloc: Global, arguments: &[&str]) -> Result<Option<(usize, usize)>, Fail> {
    let all = words(alloc, arguments)?;
    match parse_arguments(alloc, &all)?.command {
        Command::Select(file, Selection::Slice(start, count), None) if file == "f" => {
            Ok(Some((start, count)))
        }
        _ => Ok(None),
    }
}

#[test]
fn last_rows_and_counts_are_parsed(rt: HostRuntime) -> Result<(), Fail> {
    for (arguments, want) in [
        (["tail", "f"].as_slice(), Some(10)),
        (["tail", "f", "3"].as_slice(), Some(3)),
        (["tail", "--", "f", "+03"].as_slice(), Some(3)),
        (["tail", "f", "0", "--columns", "a"].as_slice(), Some(0)),
        (["count", "f"].as_slice(), None),
        (["count", "--columns=a,b", "f"].as_slice(), None),
    ] {
        let all = words(rt.alloc(), arguments)?;
        match parse_arguments(rt.alloc(), &all)?.command {
            Command::Tail(file, count) => assert!(rt; file == "f" && want == Some(count)),
            Command::Count(file) => assert!(rt; file == "f" && want == None),
            _ => return Err(Fail::from("another command")),
        }
    }
    for arguments in [
        ["tail"].as_slice(),
        &["tail", "f", "x"],
        &["tail", "f", "-1"],
        &["tail", "f", "1", "2"],
        &["count"],
        &["count", "f", "1"],
        &["count", "f", "-o", "g"],
    ] {
        let error = error_of(rt.alloc(), arguments)?;
        assert!(rt; error.use_stderr());
    }
    Ok(())
}

#[test]
fn rows_are_selected(rt: HostRuntime) -> Result<(), Fail> {
    let all = Some((0, usize::MAX));
    for (arguments, want) in [
        (["rows", "f"].as_slice(), None),
        (["rows", "f", "--start", "0"].as_slice(), all),
        (["rows", "--start=3", "f"].as_slice(), Some((3, usize::MAX))),
        (["rows", "f", "--count", "4"].as_slice(), Some((0, 4))),
        (
            ["rows", "--count=4", "f", "--start=3"].as_slice(),
            Some((3, 4)),
        ),
        (["head", "f"].as_slice(), Some((0, 10))),
        (["head", "f", "3"].as_slice(), Some((0, 3))),
        (["slice", "f", "1", "2"].as_slice(), Some((1, 2))),
        (["cut", "f", "1", "+02"].as_slice(), Some((1, 2))),
        (["slice", "--", "f", "1", "2"].as_slice(), Some((1, 2))),
        (["slice", "-o", "g", "f", "1", "2"].as_slice(), None),
        (["take", "f", "1", "2"].as_slice(), None),
    ] {
        let found = slice_of(rt.alloc(), arguments)?;
        assert!(rt; found == want, "{} {}", arguments[0], arguments.len());
    }
    Ok(())
}

/// Returns the names of the files of a command, after one another.
fn files_of(alloc: Global, arguments: &[&str]) -> Result<String, Fail> {
    let all = words(alloc, arguments)?;
    let text = match parse_arguments(alloc, &all)?.command {
        Command::Schema(file) => format!(in alloc; "schema {file}")?,
        Command::Select(file, Selection::Indices(indices), out) => {
            format!(in alloc; "{} indices {file} {}", indices.len(), out.unwrap_or(""))?
        }
        Command::Select(file, Selection::Where(_), out) => {
            format!(in alloc; "where {file} {}", out.unwrap_or(""))?
        }
        Command::Select(_, _, _) => format!(in alloc; "rows")?,
        Command::Tail(file, count) => format!(in alloc; "tail {file} {count}")?,
        Command::Count(file) => format!(in alloc; "count {file}")?,
        Command::Info(file) => format!(in alloc; "info {file}")?,
        Command::Equal(file, other) => format!(in alloc; "equal {file} {other}")?,
        Command::Concat(files, out) => {
            format!(in alloc; "concat {} {} {out}", files[0], files.len())?
        }
        Command::Convert(file, out) => format!(in alloc; "convert {file} {out}")?,
        Command::FromJson(request) => {
            let (row_type, lines, out) = (request.row_type, request.input, request.output);
            format!(in alloc; "from-json {row_type} {lines} {out}")?
        }
    };
    Ok(text)
}

#[test]
fn commands_have_files(rt: HostRuntime) -> Result<(), Fail> {
    for (arguments, want) in [
        (["schema", "f"].as_slice(), "schema f"),
        (
            ["take", "f", "7", "0", "7", "-o", "g"].as_slice(),
            "3 indices f g",
        ),
        (["where", "f", "ok"].as_slice(), "where f "),
        (
            ["where", "f", "-o", "g", "\"is ok\" and n >= -1.5"].as_slice(),
            "where f g",
        ),
        (["info", "f"].as_slice(), "info f"),
        (["info", "--", "-"].as_slice(), "info -"),
        (["equal", "f", "g"].as_slice(), "equal f g"),
        (["concat", "-o", "g", "f", "h"].as_slice(), "concat f 2 g"),
        (["convert", "f", "-"].as_slice(), "convert f -"),
        (["from-json", "t", "f", "g"].as_slice(), "from-json t f g"),
    ] {
        let found = files_of(rt.alloc(), arguments)?;
        assert!(rt; found.as_str() == want, "{want}: {found}");
    }
    Ok(())
}

/// Options of columns, and the error of each.
const INVALID_COLUMNS: [(&[&str], ErrorKind); 3] = [
    (
        &["count", "f", "--columns", "\"a"],
        ErrorKind::ValueValidation,
    ),
    (
        &["count", "f", "--columns", "a", "--columns-file", "g"],
        ErrorKind::ArgumentConflict,
    ),
    (
        &["from-json", "t", "f", "g", "--columns-file", "g"],
        ErrorKind::UnknownArgument,
    ),
];

#[test]
fn invalid_columns_are_errors(rt: HostRuntime) -> Result<(), Fail> {
    for (arguments, want) in INVALID_COLUMNS {
        let error = error_of(rt.alloc(), arguments)?;
        assert!(rt; error.kind() == want, "{}: {error}", arguments[0]);
    }
    Ok(())
}

#[test]
fn invalid_arguments_are_errors(rt: HostRuntime) -> Result<(), Fail> {
    for (arguments, want) in [
        (["show"].as_slice(), ErrorKind::InvalidSubcommand),
        (["schema"].as_slice(), ErrorKind::MissingRequiredArgument),
        (["schema", "f", "0"].as_slice(), ErrorKind::UnknownArgument),
        (
            ["--columns", "a", "rows", "f"].as_slice(),
            ErrorKind::UnknownArgument,
        ),
        (
            ["rows", "f", "1", "1"].as_slice(),
            ErrorKind::UnknownArgument,
        ),
        (
            ["rows", "f", "--count", "-1"].as_slice(),
            ErrorKind::UnknownArgument,
        ),
        (
            ["rows", "f", "--count", "x"].as_slice(),
            ErrorKind::ValueValidation,
        ),
        (["rows", "f", "--count"].as_slice(), ErrorKind::InvalidValue),
        (
            ["head", "f", "18446744073709551616"].as_slice(),
            ErrorKind::ValueValidation,
        ),
        (["take", "f"].as_slice(), ErrorKind::MissingRequiredArgument),
        (["take", "f", ""].as_slice(), ErrorKind::ValueValidation),
        (
            ["cut", "f", "1"].as_slice(),
            ErrorKind::MissingRequiredArgument,
        ),
        (
            ["where", "f", "a", "b"].as_slice(),
            ErrorKind::UnknownArgument,
        ),
        (
            ["where", "f"].as_slice(),
            ErrorKind::MissingRequiredArgument,
        ),
        (
            ["where", "f", "is ok"].as_slice(),
            ErrorKind::ValueValidation,
        ),
        (["where", "f", ""].as_slice(), ErrorKind::ValueValidation),
        (
            ["equal", "f"].as_slice(),
            ErrorKind::MissingRequiredArgument,
        ),
        (
            ["concat", "f"].as_slice(),
            ErrorKind::MissingRequiredArgument,
        ),
        (
            ["convert", "f", "g", "-o", "h"].as_slice(),
            ErrorKind::UnknownArgument,
        ),
        (
            ["slice", "f", "1", "2", "-o", "g", "-o", "h"].as_slice(),
            ErrorKind::ArgumentConflict,
        ),
        (
            ["info", "f", "--columns", "a"].as_slice(),
            ErrorKind::UnknownArgument,
        ),
        (["--help"].as_slice(), ErrorKind::DisplayHelp),
        (["help", "rows"].as_slice(), ErrorKind::DisplayHelp),
        (["rows", "--help"].as_slice(), ErrorKind::DisplayHelp),
        (["--version"].as_slice(), ErrorKind::DisplayVersion),
    ] {
        let error = error_of(rt.alloc(), arguments)?;
        assert!(rt;
            error.kind() == want,
            "{} {}: {error}",
            arguments[0],
            arguments.len()
        );
    }
    let none = ErrorKind::DisplayHelpOnMissingArgumentOrSubcommand;
    assert!(rt; error_of(rt.alloc(), &[])?.kind() == none);
    Ok(())
}

#[test]
fn names_have_formats(rt: HostRuntime) {
    for (name, want) in [
        ("a.arrows", Format::Stream),
        (".arrows", Format::Stream),
        ("a.arrow", Format::File),
        ("arrows", Format::File),
        ("-", Format::File),
        ("", Format::File),
    ] {
        assert!(rt; format_of(name) == want, "{name}");
    }
}

#[test]
fn columns_are_parsed(rt: HostRuntime) -> Result<(), Fail> {
    let alloc = rt.alloc();
    for arguments in [
        ["rows", "--columns", "a,b", "f"].as_slice(),
        ["rows", "f", "--columns=a,b"].as_slice(),
        ["concat", "f", "-o", "g", "--columns", "a,b"].as_slice(),
    ] {
        let all = words(alloc, arguments)?;
        let found = parse_arguments(alloc, &all)?;
        match found.columns {
            Some(ColumnNames::Listed(names)) => {
                assert!(rt;
                    names.len() == 2 && names[0].as_str() == "a" && names[1].as_str() == "b"
                );
            }
            _ => return Err(Fail::from("other columns")),
        }
    }
    Ok(())
}

#[test]
fn files_of_columns_are_parsed(rt: HostRuntime) -> Result<(), Fail> {
    let all = words(rt.alloc(), &["count", "--columns-file", "g", "f"])?;
    let found = parse_arguments(rt.alloc(), &all)?;
    assert!(rt; matches!(&found.columns, Some(ColumnNames::InFile("g"))));
    for (text, want) in [
        ("", [].as_slice()),
        ("a", &["a"]),
        ("a\nb,c\n", &["a", "b,c"]),
        ("a\r\n\n\"b\"\n", &["a", "", "\"b\""]),
    ] {
        let found = name_lines(rt.alloc(), text)?;
        assert!(rt; found.as_slice() == want, "{text:?}: {found:?}");
    }
    Ok(())
}

/// Lists of column names, and the names, each after a line feed.
const COLUMN_NAMES: [(&str, &str); 10] = [
    ("a,b", "\na\nb"),
    ("a", "\na"),
    ("", "\n"),
    (",", "\n\n"),
    ("a,", "\na\n"),
    ("a\"b,c\"", "\na\"b\nc\""),
    ("\"a,b\",c", "\na,b\nc"),
    ("\"a\"\"b\",\"\"\"\"", "\na\"b\n\""),
    ("\"\",a", "\n\na"),
    (" \"a\",ä", "\n \"a\"\nä"),
];

/// Invalid lists of column names, and their errors.
const INVALID_NAMES: [(&str, ColumnNamesError); 5] = [
    ("\"", ColumnNamesError::UnclosedName(0)),
    ("a,\"b", ColumnNamesError::UnclosedName(2)),
    ("\"a\"\"", ColumnNamesError::UnclosedName(0)),
    ("\"a\"b", ColumnNamesError::CommaExpected(3)),
    ("ä,\"a\" ,b", ColumnNamesError::CommaExpected(6)),
];

#[test]
fn column_names_are_parsed(rt: HostRuntime) -> Result<(), Fail> {
    let alloc = rt.alloc();
    for (text, want) in COLUMN_NAMES {
        let mut found = String::new(alloc);
        for name in &parse_column_names(alloc, text).expect(&rt, text) {
            found.push_str("\n")?;
            found.push_str(name.as_str())?;
        }
        assert!(rt; found.as_str() == want, "{text}: {found:?}");
    }
    for (text, want) in INVALID_NAMES {
        let found = parse_column_names(alloc, text).err();
        assert!(rt;
            found == Some(ParseColumnNamesError::Names(want)),
            "{text}: {found:?}"
        );
    }
    Ok(())
}
