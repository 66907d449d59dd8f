//! Measures LZ4 and Zstandard on files: `bench_codecs FILE .. run` prints nanoseconds per thousand bytes of content. A file that begins as
//! an LZ4 or Zstandard frame is decoded; any other is encoded as an LZ4 frame, which is decoded. `scripts/bench_codecs.sh` runs it beside
//! `lz4` and `zstd`. Without `run` it does the same work on small contents and prints the results alone.
#![tactic(auto)]

mod contents;

use anyhow::Result;
use bench_tools::{begin, is_measured, report};
use contents::{noise, numbers, rows};
use lz4_frame::{decode_frame, encode_frame};
use std::rt::Clock;
use std::{env, fs};
use zstd_decode::decode_frames;

/// No content is longer.
const LIMIT: usize = 4_000_000_000;

const FEW: usize = 10_000;

const THOUSAND: usize = 1000;

fn decode_lz4<R: Clock + Print + AllocGlobal>(rt: &R, frame: &[u8], measured: bool) -> Result<()> {
    let thousands = decode_frame(rt.alloc(), frame, LIMIT)?.len() / THOUSAND;
    let begun = begin(rt, measured)?;
    let content = decode_frame(rt.alloc(), frame, LIMIT)?;
    report(rt, "  LZ4, decoded", content.len(), begun, thousands)?;
    Ok(())
}

fn decode_zstd<R: Clock + Print + AllocGlobal>(
    rt: &R,
    frames: &[u8],
    measured: bool,
) -> Result<()> {
    let thousands = decode_frames(rt.alloc(), frames, LIMIT)?.len() / THOUSAND;
    let begun = begin(rt, measured)?;
    let content = decode_frames(rt.alloc(), frames, LIMIT)?;
    report(rt, "  Zstandard, decoded", content.len(), begun, thousands)?;
    Ok(())
}

fn encode_lz4<R: Clock + Print + AllocGlobal>(
    rt: &R,
    content: &[u8],
    measured: bool,
) -> Result<()> {
    drop(encode_frame(rt.alloc(), content)?);
    let begun = begin(rt, measured)?;
    let frame = encode_frame(rt.alloc(), content)?;
    let thousands = content.len() / THOUSAND;
    report(rt, "  LZ4, encoded", frame.len(), begun, thousands)?;
    decode_lz4(rt, &frame, measured)
}

fn run_bytes<R: Clock + Print + AllocGlobal>(
    rt: &R,
    name: &str,
    bytes: &[u8],
    measured: bool,
) -> Result<()> {
    println!(rt; "{name}")?;
    match bytes {
        [0x04, 0x22, 0x4D, 0x18, ..] => decode_lz4(rt, bytes, measured),
        [0x28, 0xB5, 0x2F, 0xFD, ..] => decode_zstd(rt, bytes, measured),
        _ => encode_lz4(rt, bytes, measured),
    }
}

fn run_few(rt: &HostRuntime) -> Result<()> {
    run_bytes(rt, "text", &rows(rt.alloc(), FEW)?, false)?;
    run_bytes(rt, "numbers", &numbers(rt.alloc(), FEW)?, false)?;
    run_bytes(rt, "noise", &noise(rt.alloc(), FEW)?, false)
}

fn main(rt: HostRuntime) -> Result<()> {
    if !is_measured(&rt)? {
        return run_few(&rt);
    }
    for name in env::args(&rt)?.skip(1) {
        if name.as_str() != "run" {
            let bytes = fs::read(&rt, name.as_str())?;
            run_bytes(&rt, name.as_str(), &bytes, true)?;
        }
    }
    Ok(())
}
