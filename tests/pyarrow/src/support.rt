//! The columns of samples whose types are not supported.
use cli_read::{Input, open};
use cli_rows::{support_error, support_lines};
use ipc_io::fetch_message;
use ipc_schema::{Projection, UnsupportedType, columns_support};
use std::io::Cursor;
use std::process::Abort;
use std::test::*;

const LIST_VIEWS: &[u8] = include_bytes!("pyarrow/samples/formats/list_views.arrows");

const LIST_VIEWS_INSIDE: &[u8] = include_bytes!("pyarrow/samples/formats/list_views_inside.arrows");

const RUN_ENDS: &[u8] = include_bytes!("pyarrow/samples/formats/run_ends.arrows");

/// Checks the lines of the columns of a stream, of which those at `supported` are supported.
fn expect_lines(
    rt: &(impl Abort + AllocGlobal),
    bytes: &[u8],
    supported: &[usize],
    expected: &str,
) {
    let alloc = rt.alloc();
    let mut reader = Cursor::new(bytes);
    let message = fetch_message(alloc, &mut reader).expect(rt, "no message");
    let first = message.as_ref().map(|m| m.message());
    let columns = columns_support(alloc, first).expect(rt, "no columns");
    let input = Input::Stream(Cursor::new(bytes));
    let opened = open(alloc, Projection::Indices(supported), input).expect(rt, "not opened");
    let lines = support_lines(alloc, &columns, &opened.schema().fields).expect(rt, "no lines");
    assert!(rt; lines.as_str() == expected, "{lines}");
}

#[test]
fn unsupported_columns_are_marked(rt: HostRuntime) {
    let lists = "list: list_view (not supported)\nlarge: large_list_view (not supported)\n";
    expect_lines(&rt, LIST_VIEWS, &[], lists);
    let inside = "id: int64\ns.v.item: list_view (not supported)\n";
    expect_lines(&rt, LIST_VIEWS_INSIDE, &[0], inside);
    let runs = "run: run_end_encoded (not supported)\nother: int8\n";
    expect_lines(&rt, RUN_ENDS, &[1], runs);
}

#[test]
fn unsupported_columns_are_named(rt: HostRuntime) {
    let mut reader = Cursor::new(LIST_VIEWS_INSIDE);
    let message = fetch_message(rt.alloc(), &mut reader).expect(&rt, "no message");
    let first = message.as_ref().map(|m| m.message());
    let columns = columns_support(rt.alloc(), first).expect(&rt, "no columns");
    assert!(rt; columns.len() == 2 && columns[0].name == "id" && columns[1].name == "s");
    assert!(rt; columns[0].unsupported.is_none());
    match &columns[1].unsupported {
        None => assert!(rt; false, "supported"),
        Some(field) => {
            assert!(rt; field.data_type == UnsupportedType::ListView);
            assert!(rt; field.names.as_slice() == ["item", "v", "s"].as_slice());
            let error = support_error(rt.alloc(), field).expect(&rt, "no error");
            let expected =
                "column \"s.v.item\": list_view is not supported (read other columns with --columns)";
            assert!(rt; error.as_str() == expected, "{error}");
        }
    }
}
