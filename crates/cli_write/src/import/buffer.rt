//! Bytes that are read and not yet parsed.
ghost use Rattle.std.specs.Prelude.{◌≡◌, ◌↔◌, ◌<◌, ◌≤◌, ◌⊎◌, ◌++◌, [], false, true, drop, length, option_map, IfErr, IfOk, IsTrue, OnOk};
ghost use Rattle.std.specs.Io.KnownBytes.{IsAtEnd, Keeps};
ghost use Rattle.cli_write.specs.LineBuffers.{AreWholeLines, HasNewline, KnowsEnd, unread_bytes};
ghost use Rattle.cli_write.specs.declared.import.error.ImportError.TheVariants.{Input, Memory};

use crate::import::error::ImportError;
use memchr::memrchr;
use std::alloc::Global;
use std::io::Read;

/// The number of lines of a record batch.
pub(crate) const LINES: usize = 65536;

/// The number of bytes after which a record batch has fewer lines, but one line at least.
const BYTES: usize = 33_554_432;

/// Bytes that are read and not yet parsed, the reader of further bytes, and whether it is at its end.
#[derive(Drop)]
pub(crate) struct LineBuffer<R> {
    pub(crate) reader: R,
    pub(crate) text: Vec<u8>,
    pub(crate) is_over: bool,
}

/// Counts newlines.
fn count_newlines(text: &[u8]) -> usize
    ensures { 0 < result → HasNewline text.now }
{
    let mut found = 0usize;
    for byte in text {
        if *byte == b'\n' {
            found = found.wrapping_add(1);
        }
    }
    found
}

impl<R: Read> LineBuffer<R> {
    /// Returns the buffer before the first read.
    pub(crate) fn new(alloc: Global, reader: R) -> LineBuffer<R>
        ensures ahead { unread_bytes R.remaining result ≡ R.remaining reader }
        ensures over { KnowsEnd R.remaining result }
    {
        LineBuffer {
            reader,
            text: Vec::new(alloc),
            is_over: false,
        }
    }

    /// Reads further bytes. Returns the number of their newlines.
    fn read_more(&mut self) -> Result<usize, ImportError>
        requires open { self.old.is_over ≡ false }
        ensures ahead { OnOk result (Keeps (unread_bytes R.remaining self.old) (unread_bytes R.remaining self.new)) }
        ensures over { OnOk result (KnowsEnd R.remaining self.new) }
        ensures more { OnOk result ((self.new.is_over ≡ true) ⊎ (length self.old.text.items < length self.new.text.items)) }
        ensures newlines { IfOk result (λ n. (0 < n) ⊎ HasNewline self.old.text.items → HasNewline self.new.text.items) }
        ensures error { IfErr result (λ e. (e ≡ Input) ⊎ (e ≡ Memory)) }
    {
        let mut buffer = [0u8; 16384];
        match self.reader.read(&mut buffer) {
            Ok(0) => {
                self.is_over = true;
                Ok(0)
            }
            Ok(n) => {
                self.text.extend_from_slice(&buffer[..n])?;
                Ok(count_newlines(&buffer[..n]))
            }
            Err(_) => Err(ImportError::Input),
        }
    }

    /// Reads until the lines of a record batch are complete, or the input ends.
    pub(crate) fn fill(&mut self) -> Result<(), ImportError>
        requires over { KnowsEnd R.remaining self.old }
        ensures ahead { OnOk result (Keeps (unread_bytes R.remaining self.old) (unread_bytes R.remaining self.new)) }
        ensures over { OnOk result (KnowsEnd R.remaining self.new) }
        ensures enough { OnOk result ((self.new.is_over ≡ true) ⊎ HasNewline self.new.text.items) }
        ensures error { IfErr result (λ e. (e ≡ Input) ⊎ (e ≡ Memory)) }
    {
        let mut lines = count_newlines(&self.text);
        'reads: for _turn in 0..u64::MAX {
            if self.is_over || lines >= LINES || lines > 0 && self.text.len() >= BYTES {
                return Ok(());
            }
            match self.read_more() {
                Ok(more) => lines = lines.wrapping_add(more),
                Err(error) => return Err(error),
            }
        }
        Err(ImportError::Input)
    }

    /// Returns whether every line was parsed.
    pub(crate) fn is_done(&self) -> bool
        requires over { KnowsEnd R.remaining self.now }
        ensures end { IsTrue result → IsAtEnd (unread_bytes R.remaining self.now) }
        ensures done { IsTrue result ↔ (self.now.is_over ≡ true) × (self.now.text.items ≡ []) }
    {
        self.is_over && self.text.is_empty()
    }

    /// Returns the number of bytes of complete lines.
    pub(crate) fn whole_lines(&self) -> usize
        ensures within { result ≤ length self.now.text.items }
        ensures lines { AreWholeLines self.now.is_over self.now.text.items result }
        ensures some { HasNewline self.now.text.items → 0 < result }
    {
        if self.is_over {
            return self.text.len();
        }
        match memrchr(b'\n', &self.text) {
            Some(i) => i + 1,
            None => 0,
        }
    }

    /// Drops the first `n` bytes.
    pub(crate) fn consume(&mut self, n: usize)
        requires { n ≤ length self.old.text.items }
        ensures ahead { unread_bytes R.remaining self.new ≡ option_map (λ rest. drop n self.old.text.items ++ rest) (R.remaining self.old.reader) }
        ensures over { KnowsEnd R.remaining self.old → KnowsEnd R.remaining self.new }
    {
        let left = self.text.len() - n;
        self.text.copy_within(n.., 0);
        self.text.truncate(left);
    }
}
