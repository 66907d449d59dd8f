//! Reads, writes and counts bits of byte slices. Bit k is bit k % 8 of byte k / 8, the least significant first.
ghost use Rattle.std.specs.Prelude.{◌≡◌, ◌≢◌, ℕ, ◌+◌, ◌*◌, ◌^◌, ◌<◌, ◌≤◌, length, nat_eq, OnOk, OnErr, count_by, not, IsOkUnless, alloc_error};
ghost use Rattle.std.specs.Int.{bit_at};
ghost use Rattle.nest_memory.specs.Bits.{bit, bits_from};

use std::alloc::AllocError;

#[tactic(auto, unfolding(crate::specs::Bits::bit))]
pub(crate) fn get_bit(bytes: &[u8], k: usize) -> bool
    requires { k < 8 * length bytes.now }
    ensures { result ≡ bit bytes.now k }
{
    (bytes[k / 8] >> (k % 8)) & 1 == 1
}

fn with_bit(byte: u8, k: usize, value: bool) -> u8
    requires { k < 8 }
    ensures same { nat_eq (bit_at result k) 1 ≡ value }
    ensures other { (i : ℕ) → i < 8 → i ≢ k → bit_at result i ≡ bit_at byte i }
{
    if value {
        return byte | (1u8 << k);
    }
    byte & !(1u8 << k)
}

pub(crate) fn set_bit(bytes: &mut Vec<u8>, k: usize, value: bool)
    requires { k < 8 * length bytes.old.items }
    ensures same { bit bytes.new.items k ≡ value }
    ensures other { (j : ℕ) → j ≢ k → bit bytes.new.items j ≡ bit bytes.old.items j }
    ensures len { length bytes.new.items ≡ length bytes.old.items }
{
    let byte = with_bit(bytes[k / 8], k % 8, value);
    bytes[k / 8] = byte;
}

// Makes room for one bit after the first n, which are kept.
pub(crate) fn make_room(bytes: &mut Vec<u8>, n: usize) -> Result<(), AllocError>
    requires { n ≤ 8 * length bytes.old.items }
    ensures room { OnOk result (n < 8 * length bytes.new.items) }
    ensures keeps { (j : ℕ) → j < n → bit bytes.new.items j ≡ bit bytes.old.items j }
    ensures err { OnErr result (bytes.new.items ≡ bytes.old.items) }
{
    if n / 8 < bytes.len() {
        return Ok(());
    }
    bytes.push(0)?;
    Ok(())
}

// Returns the number of bytes that hold n bits.
pub(crate) fn byte_count(n: usize) -> usize
    ensures enough { n ≤ 8 * result }
    ensures tight { 8 * result < n + 8 }
{
    if n % 8 == 0 { n / 8 } else { n / 8 + 1 }
}

// Returns the byte whose bits are all `value`.
fn filled_byte(value: bool) -> u8
    ensures { (i : ℕ) → i < 8 → nat_eq (bit_at result i) 1 ≡ value }
{
    if value {
        return 255;
    }
    0
}

// Sets `count` bits, at most seven, from index `start` to `value`.
fn set_bits(bytes: &mut Vec<u8>, start: usize, count: usize, value: bool)
    requires fits { start + count < 2 ^ 64 }
    requires within { start + count ≤ 8 * length bytes.old.items }
    ensures set { (j : ℕ) → start ≤ j → j < start + count → bit bytes.new.items j ≡ value }
    ensures before { (j : ℕ) → j < start → bit bytes.new.items j ≡ bit bytes.old.items j }
    ensures after { (j : ℕ) → start + count ≤ j → bit bytes.new.items j ≡ bit bytes.old.items j }
    ensures len { length bytes.new.items ≡ length bytes.old.items }
{
    for k in start..start + count {
        set_bit(bytes, k, value);
    }
}

// Appends bits of one value to the first n, a byte at a time.
pub(crate) fn extend_constant(
    bytes: &mut Vec<u8>,
    n: usize,
    additional: usize,
    value: bool,
) -> Result<(), AllocError>
    requires fits { n + additional < 2 ^ 64 }
    requires within { n ≤ 8 * length bytes.old.items }
    ensures room { OnOk result (n + additional ≤ 8 * length bytes.new.items) }
    ensures filled { OnOk result ((j : ℕ) → n ≤ j → j < n + additional → bit bytes.new.items j ≡ value) }
    ensures keeps { (j : ℕ) → j < n → bit bytes.new.items j ≡ bit bytes.old.items j }
    ensures err { OnErr result (n ≤ 8 * length bytes.new.items) }
{
    let used = byte_count(n);
    bytes.truncate(used);
    bytes.resize(byte_count(n + additional), filled_byte(value))?;
    let begun = additional.min(8 * (used - n / 8) - n % 8);
    set_bits(bytes, n, begun, value);
    Ok(())
}

// Returns how many of the bits from index `start` are 0, counted bit by bit.
fn unset_one_by_one(bytes: &[u8], start: usize, count: usize) -> usize
    requires fits { start + count < 2 ^ 64 }
    requires within { start + count ≤ 8 * length bytes.now }
    ensures { result ≡ count_by not (bits_from bytes.now start count) }
{
    let mut unset = 0;
    for i in 0..count {
        if !get_bit(bytes, start + i) {
            unset += 1;
        }
    }
    unset
}

// Returns how many bits of the bytes from index `first` are 0.
fn unset_in_bytes(bytes: &[u8], first: usize, count: usize) -> usize
    requires fits { 8 * count < 2 ^ 64 }
    requires within { first + count ≤ length bytes.now }
    ensures { result ≡ count_by not (bits_from bytes.now (8 * first) (8 * count)) }
{
    let mut unset = 0;
    for i in 0..count {
        unset += bytes[first + i].count_zeros() as usize;
    }
    unset
}

// Returns how many of `count` bits from index `start` are 0, a byte at a time except at both ends.
pub(crate) fn unset_bits(bytes: &[u8], start: usize, count: usize) -> usize
    requires fits { start + count < 2 ^ 64 }
    requires within { start + count ≤ 8 * length bytes.now }
    ensures { result ≡ count_by not (bits_from bytes.now start count) }
{
    let head = count.min((8 - start % 8) % 8);
    let whole = (count - head) / 8;
    let tail = count - head - 8 * whole;
    let middle = start + head;
    let before = unset_one_by_one(bytes, start, head);
    let inside = unset_in_bytes(bytes, middle / 8, whole);
    let after = unset_one_by_one(bytes, middle + 8 * whole, tail);
    before + inside + after
}
