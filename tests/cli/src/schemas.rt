//! Schemas as text, of inputs whose dictionaries and record batches are not read.
use crate::counting::overwrite_bodies;
use crate::devices::{Device, NEVER, input};
use crate::oracle::text_of;
use crate::samples::{
    BOOLEANS, COLUMNLESS, DICTIONARIES, DICTIONARY_FILE, EMPTY, FILE, LEGACY_FILE, STREAM, bytes_of,
};
use cli_args::Request;
use cli_read::{open_schema, schema_text};
use cli_rows::{CliError, schema_lines};
use ipc_schema::Projection;
use ipc_schema::footer::read_footer;
use std::alloc::Global;
use std::test::*;

// The schema of bytes as text. The call with the number `fails_at` fails.
fn schema_of(
    alloc: Global,
    columns: Projection<'_>,
    bytes: &[u8],
    fails_at: usize,
) -> Result<String, CliError> {
    let own = bytes.to_vec(alloc)?;
    schema_text(alloc, columns, input(bytes, Device::new(own, fails_at)))
}

#[test]
fn samples_have_the_schema_that_is_printed(rt: HostRuntime) -> Result<(), Fail> {
    let alloc = rt.alloc();
    for sample in [
        STREAM,
        FILE,
        BOOLEANS,
        COLUMNLESS,
        EMPTY,
        DICTIONARIES,
        DICTIONARY_FILE,
        LEGACY_FILE,
    ] {
        let bytes = bytes_of(alloc, sample)?;
        let printed = text_of(alloc, Projection::All, &Request::Columns, &bytes)?;
        let text = schema_of(alloc, Projection::All, &bytes, NEVER)?;
        assert!(rt; text.as_str() == printed.as_str(), "{text}");
        let device = Device::new(bytes_of(alloc, sample)?, NEVER);
        let reader = open_schema(alloc, Projection::All, input(&bytes, device))?;
        let lines = schema_lines(alloc, &reader.schema().fields)?;
        assert!(rt; lines.as_str() == printed.as_str(), "{lines}");
    }
    let text = schema_of(alloc, Projection::Names(&["b"]), FILE, NEVER)?;
    assert!(rt; text.as_str() == "b: string\n", "{text}");
    let unknown = schema_of(alloc, Projection::Names(&["b", "c"]), FILE, NEVER);
    assert!(rt; unknown.err() == Some(CliError::UnknownName(1)));
    Ok(())
}

#[test]
fn dictionaries_and_bodies_are_not_read(rt: HostRuntime) -> Result<(), Fail> {
    let alloc = rt.alloc();
    let mut bytes = bytes_of(alloc, DICTIONARY_FILE)?;
    let want = schema_of(alloc, Projection::All, &bytes, NEVER)?;
    overwrite_bodies(alloc, &mut bytes, NEVER)?;
    let footer = read_footer(alloc, Projection::All, &bytes)?;
    assert!(rt; !footer.dictionaries.is_empty());
    for block in &footer.dictionaries {
        for i in 0..block.metadata_length as usize {
            bytes[block.offset as usize + i] = 0;
        }
    }
    let text = schema_of(alloc, Projection::All, &bytes, NEVER)?;
    assert!(rt; text.as_str() == want.as_str(), "{text}");
    // Of a stream the schema message alone.
    let stream = bytes_of(alloc, STREAM)?;
    let want = schema_of(alloc, Projection::All, &stream, NEVER)?;
    let mut schemas = 0;
    for length in 0..stream.len() {
        match schema_of(alloc, Projection::All, &stream[..length], NEVER) {
            Ok(text) => {
                assert!(rt; text.as_str() == want.as_str(), "{text}");
                schemas += 1;
            }
            Err(error) => {
                let is_read = matches!(error, CliError::Read(_));
                assert!(rt; schemas == 0 && is_read, "{length}: {error}");
            }
        }
    }
    assert!(rt; schemas > 0);
    Ok(())
}

#[test]
fn devices_fail(rt: HostRuntime) -> Result<(), Fail> {
    let alloc = rt.alloc();
    for sample in [STREAM, FILE] {
        let want = schema_of(alloc, Projection::All, sample, NEVER)?;
        let mut failed = 0;
        for k in 0..20 {
            match schema_of(alloc, Projection::All, sample, k) {
                Ok(text) => assert!(rt; text.as_str() == want.as_str(), "{text}"),
                Err(error) => {
                    assert!(rt; error == CliError::Input, "{error}");
                    failed += 1;
                }
            }
        }
        assert!(rt; failed > 0);
    }
    Ok(())
}
