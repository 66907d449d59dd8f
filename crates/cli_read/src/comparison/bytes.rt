//! Two readers of equal bytes.
ghost use Rattle.std.specs.Prelude.{◌<◌, IsTrue, length};
ghost use Rattle.std.specs.Io.KnownBytes.{Keeps};
ghost use Rattle.ipc_io.specs.Seeks.{IsAt, known, position_and_bytes};
ghost use Rattle.cli_read.specs.EqualBytes.{HaveEqualBytes, ReadsBothEqually};

use ipc_io::SeekRead;
use std::io::SeekFrom;

/// The number of bytes read of each side at a time.
const BLOCK: usize = 65536;

/// Moves to the first byte. Returns whether that succeeded.
fn rewind<R: SeekRead>(reader: &mut R) -> bool
    ensures moves { IsTrue result → IsAt (position_and_bytes (R.stream_position reader.old) (R.stream_bytes reader.old)) (position_and_bytes (R.stream_position reader.new) (R.stream_bytes reader.new)) 0 }
    ensures kept { Keeps (known (R.stream_position reader.old) (R.stream_bytes reader.old)) (known (R.stream_position reader.new) (R.stream_bytes reader.new)) }
{
    reader.seek(SeekFrom::Start(0)).is_ok()
}

/// Reads further bytes of both sides. Returns their number, which is 0 only at the end of both, if they are equal; `None` if they differ,
/// or a read fails.
fn read_equal_bytes<R: SeekRead, S: SeekRead>(
    left: &mut R,
    right: &mut S,
    a: &mut [u8],
    b: &mut [u8],
) -> Option<usize>
    requires { (0 < length a.old) × (0 < length b.old) }
    ensures alike { ReadsBothEqually R.stream_position R.stream_bytes S.stream_position S.stream_bytes left.old right.old result left.new right.new }
    ensures left { Keeps (known (R.stream_position left.old) (R.stream_bytes left.old)) (known (R.stream_position left.new) (R.stream_bytes left.new)) }
    ensures right { Keeps (known (S.stream_position right.old) (S.stream_bytes right.old)) (known (S.stream_position right.new) (S.stream_bytes right.new)) }
{
    let Ok(n) = left.read_at_position(a) else {
        return None;
    };
    let Ok(m) = right.read_at_position(b) else {
        return None;
    };
    if n != m || a[..n] != b[..n] {
        return None;
    }
    Some(n)
}

/// Returns whether two readers have equal bytes, from the first to the last. Returns `false` if a read or a seek fails.
pub(crate) fn have_equal_bytes<R: SeekRead, S: SeekRead>(left: &mut R, right: &mut S) -> bool
    ensures alike { IsTrue result → HaveEqualBytes (known (R.stream_position left.old) (R.stream_bytes left.old)) (known (S.stream_position right.old) (S.stream_bytes right.old)) }
    ensures left { Keeps (known (R.stream_position left.old) (R.stream_bytes left.old)) (known (R.stream_position left.new) (R.stream_bytes left.new)) }
    ensures right { Keeps (known (S.stream_position right.old) (S.stream_bytes right.old)) (known (S.stream_position right.new) (S.stream_bytes right.new)) }
{
    let mut a = [0u8; BLOCK];
    let mut b = [0u8; BLOCK];
    if !rewind(left) || !rewind(right) {
        return false;
    }
    'blocks: for _turn in 0..u64::MAX {
        match read_equal_bytes(left, right, &mut a, &mut b) {
            None => return false,
            Some(0) => return true,
            Some(_) => {}
        }
    }
    false
}
