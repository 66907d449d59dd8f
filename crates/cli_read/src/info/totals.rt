//! Numbers over all batches, and what is said of all of them.
ghost use Rattle.std.specs.Prelude.{◌≡◌, ◌≤◌};
ghost use Rattle.std.specs.List.{list_any};
ghost use Rattle.cli_read.specs.InfoTotals.{compression_text, deltas_in, dictionaries_in, has_version_4, has_version_5, is_lz4, is_plain, is_zstd, rows_in, spec_delta_count, spec_dictionary_count, spec_row_count, version_text};

use ipc_flatbuf::CompressionCodec;
use ipc_flatbuf::message::MetadataVersion;
use ipc_io::{BatchInfo, BatchKind};

// Returns the number of rows of a record batch, and 0 for a dictionary batch.
fn rows_of(info: BatchInfo) -> usize
    ensures { result ≡ rows_in info }
{
    match info.kind {
        BatchKind::Records => info.rows,
        BatchKind::Dictionary => 0,
        BatchKind::Delta => 0,
    }
}

// Returns 1 for a dictionary batch.
fn dictionaries_of(info: BatchInfo) -> usize
    ensures value { result ≡ dictionaries_in info }
    ensures bound { result ≤ 1 }
{
    match info.kind {
        BatchKind::Records => 0,
        BatchKind::Dictionary => 1,
        BatchKind::Delta => 1,
    }
}

// Returns 1 for a delta dictionary.
fn deltas_of(info: BatchInfo) -> usize
    ensures value { result ≡ deltas_in info }
    ensures bound { result ≤ 1 }
{
    match info.kind {
        BatchKind::Records => 0,
        BatchKind::Dictionary => 0,
        BatchKind::Delta => 1,
    }
}

/// Returns the number of rows of all record batches.
pub(crate) fn row_count(infos: &[BatchInfo]) -> u128
    ensures { result ≡ spec_row_count infos.now }
{
    let mut rows = 0u128;
    for info in infos {
        rows += rows_of(*info) as u128;
    }
    rows
}

/// Returns the number of dictionary batches, with deltas.
pub(crate) fn dictionary_count(infos: &[BatchInfo]) -> usize
    ensures { result ≡ spec_dictionary_count infos.now }
{
    let mut count = 0usize;
    for info in infos {
        count += dictionaries_of(*info);
    }
    count
}

/// Returns the number of delta dictionaries.
pub(crate) fn delta_count(infos: &[BatchInfo]) -> usize
    ensures { result ≡ spec_delta_count infos.now }
{
    let mut count = 0usize;
    for info in infos {
        count += deltas_of(*info);
    }
    count
}

fn has_v4(info: BatchInfo) -> bool
    ensures { result ≡ has_version_4 info }
{
    match info.version {
        MetadataVersion::V4 => true,
        MetadataVersion::V5 => false,
    }
}

fn has_v5(info: BatchInfo) -> bool
    ensures { result ≡ has_version_5 info }
{
    match info.version {
        MetadataVersion::V4 => false,
        MetadataVersion::V5 => true,
    }
}

fn some_have_v4(infos: &[BatchInfo]) -> bool
    ensures { result ≡ list_any has_version_4 infos.now }
{
    infos.iter().any(|info| has_v4(*info))
}

fn some_have_v5(infos: &[BatchInfo]) -> bool
    ensures { result ≡ list_any has_version_5 infos.now }
{
    infos.iter().any(|info| has_v5(*info))
}

// Returns the version of batches by whether some have version 4, and some version 5.
fn version_name(fours: bool, fives: bool) -> &'static str
    ensures { result.now ≡ version_text fours fives }
{
    if fours {
        if fives { "mixed" } else { "V4" }
    } else if fives {
        "V5"
    } else {
        "none"
    }
}

/// Returns the metadata version of all batches.
pub(crate) fn version(infos: &[BatchInfo]) -> &'static str
    ensures { result.now ≡ version_text (list_any has_version_4 infos.now) (list_any has_version_5 infos.now) }
{
    version_name(some_have_v4(infos), some_have_v5(infos))
}

fn uses_no_codec(info: BatchInfo) -> bool
    ensures { result ≡ is_plain info }
{
    match info.compression {
        None => true,
        Some(CompressionCodec::Lz4Frame) => false,
        Some(CompressionCodec::Zstd) => false,
    }
}

fn uses_lz4(info: BatchInfo) -> bool
    ensures { result ≡ is_lz4 info }
{
    match info.compression {
        None => false,
        Some(CompressionCodec::Lz4Frame) => true,
        Some(CompressionCodec::Zstd) => false,
    }
}

fn uses_zstd(info: BatchInfo) -> bool
    ensures { result ≡ is_zstd info }
{
    match info.compression {
        None => false,
        Some(CompressionCodec::Lz4Frame) => false,
        Some(CompressionCodec::Zstd) => true,
    }
}

fn some_use_none(infos: &[BatchInfo]) -> bool
    ensures { result ≡ list_any is_plain infos.now }
{
    infos.iter().any(|info| uses_no_codec(*info))
}

fn some_use_lz4(infos: &[BatchInfo]) -> bool
    ensures { result ≡ list_any is_lz4 infos.now }
{
    infos.iter().any(|info| uses_lz4(*info))
}

fn some_use_zstd(infos: &[BatchInfo]) -> bool
    ensures { result ≡ list_any is_zstd infos.now }
{
    infos.iter().any(|info| uses_zstd(*info))
}

// Returns the compression of batches by whether some are not compressed, some are by LZ4, and some by Zstandard.
fn compression_name(plain: bool, lz4: bool, zstd: bool) -> &'static str
    ensures { result.now ≡ compression_text plain lz4 zstd }
{
    if lz4 {
        if plain || zstd { "mixed" } else { "lz4" }
    } else if zstd {
        if plain { "mixed" } else { "zstd" }
    } else {
        "none"
    }
}

/// Returns the compression of all batches.
pub(crate) fn compression(infos: &[BatchInfo]) -> &'static str
    ensures { result.now ≡ compression_text (list_any is_plain infos.now) (list_any is_lz4 infos.now) (list_any is_zstd infos.now) }
{
    compression_name(
        some_use_none(infos),
        some_use_lz4(infos),
        some_use_zstd(infos),
    )
}
