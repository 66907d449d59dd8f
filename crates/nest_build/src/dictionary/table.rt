//! The hash table of dictionary builders: indices by hash.
ghost use Rattle.std.specs.Prelude.{◌≡◌, ℕ, ◌+◌, ◌-◌, ◌*◌, ◌<◌, ◌≤◌, ◌++◌, ◌∷◌, [], true, false, get_or, length, take, slice_get, Some, IfOk, IfSome, IfNone, OnOk, OnErr, IsOkUnless, alloc_error};
ghost use Rattle.nest_build.specs.Seats.{AreSeats, IsFree, IsSeated, free_places, place_on};
ghost use Rattle.nest_build.specs.Words.{Memory};

use nest_memory::error::{Error, Result};
use std::alloc::{AllocError, Global};
use std::marker::Model;

/// The hashes of values by index, and a hash table of the indices: open addressing with linear probing, at most half
/// full. Only `push` allocates.
#[derive(Drop)]
pub struct KeyTable {
    hashes: Vec<u64>,
    // a table entry is an index plus one, or 0 if it is free
    places: Vec<usize>,
}

impl Model for KeyTable {
    ghost use Rattle.std.specs.Prelude.{List, ℕ, ◌*◌, ◌≤◌, length};
    ghost use Rattle.nest_build.specs.Seats.{AreSeats};

    ghost Value = { List ℕ };

    ghost view = { λ t. t.hashes.items };

    ghost invariant = { λ t. AreSeats t.hashes.items t.places.items × (2 * length t.hashes.items ≤ length t.places.items) };
}

impl KeyTable {
    /// Returns a table without hashes. Does not allocate.
    pub fn new(alloc: Global) -> KeyTable
        ensures { result ≡ [] }
    {
        KeyTable {
            hashes: Vec::new(alloc),
            places: Vec::new(alloc),
        }
    }

    /// Returns the number of hashes.
    pub fn len(&self) -> usize
        ensures { result ≡ length self.now }
    {
        self.hashes.len()
    }

    /// Appends a hash.
    ///
    /// # Errors
    /// `Memory` if an allocation fails; then nothing changes.
    pub fn push(&mut self, hash: u64) -> Result<()>
        ensures ok { OnOk result (self.new ≡ self.old ++ hash ∷ []) }
        ensures err { OnErr result (self.new ≡ self.old) }
        ensures memory { IsOkUnless result (Memory alloc_error) }
    {
        make_room(&mut self.places, self.hashes.as_slice())?;
        let place = free_place(self.places.as_slice(), hash);
        match self.hashes.push(hash) {
            Ok(()) => {
                self.places[place] = self.hashes.len();
                Ok(())
            }
            Err(_) => Err(Error::Memory(AllocError)),
        }
    }

    /// Returns an index with this hash that passes the test.
    pub fn find<F: Fn(usize) -> bool>(&self, hash: u64, test: F) -> Option<usize>
        requires { (k : ℕ) → k < length self.now → F.pre test k }
        ensures some { IfSome result (λ k. (slice_get self.now k ≡ Some hash) × F.post test k true) }
        ensures none { IfNone result ((k : ℕ) → slice_get self.now k ≡ Some hash → F.post test k false) }
    {
        find_number(self.hashes.as_slice(), self.places.as_slice(), hash, test)
    }

    /// Keeps the first `n` hashes. Does not allocate.
    pub fn truncate(&mut self, n: usize)
        requires { n ≤ length self.old }
        ensures { self.new ≡ take n self.old }
    {
        while n < self.hashes.len() {
            self.pop();
        }
    }

    /// Removes all hashes.
    pub fn clear(&mut self)
        ensures { self.new ≡ [] }
    {
        self.hashes.clear();
        self.places.clear();
    }

    // Removes the last hash.
    fn pop(&mut self)
        requires { 0 < length self.old }
        ensures { self.new ≡ take (length self.old - 1) self.old }
    {
        if let Some(hash) = self.hashes.pop() {
            let place = place_of(self.places.as_slice(), hash, self.hashes.len());
            self.places[place] = 0;
        }
    }
}

// An index with this hash that passes the test.
fn find_number<F: Fn(usize) -> bool>(
    hashes: &[u64],
    places: &[usize],
    hash: u64,
    test: F,
) -> Option<usize>
    requires seats { AreSeats hashes.now places.now }
    requires can { (k : ℕ) → k < length hashes.now → F.pre test k }
    ensures some { IfSome result (λ k. (slice_get hashes.now k ≡ Some hash) × F.post test k true) }
    ensures none { IfNone result ((k : ℕ) → slice_get hashes.now k ≡ Some hash → F.post test k false) }
{
    let count = places.len();
    for step in 0..count {
        let Some(number) = places[place_at(hash, step, count)].checked_sub(1) else {
            return None;
        };
        if hashes[number] != hash {
            continue;
        }
        if test(number) {
            return Some(number);
        }
    }
    None
}

// Grows the table so that it is at most half full with one more hash.
fn make_room(places: &mut Vec<usize>, hashes: &[u64]) -> Result<()>
    requires seats { AreSeats hashes.now places.old.items }
    requires half { 2 * length hashes.now ≤ length places.old.items }
    ensures seats { AreSeats hashes.now places.new.items }
    ensures room { OnOk result (2 * (length hashes.now + 1) ≤ length places.new.items) }
    ensures err { OnErr result (places.new.items ≡ places.old.items) }
    ensures memory { IsOkUnless result (Memory alloc_error) }
{
    if hashes.len() < places.len() / 2 {
        return Ok(());
    }
    let Some(count) = places.len().checked_mul(2) else {
        return Err(Error::Memory(AllocError));
    };
    let mut more = free_table(*places.allocator(), count.max(8))?;
    seat_all(&mut more, hashes);
    *places = more;
    Ok(())
}

// A table of free entries.
fn free_table(alloc: Global, count: usize) -> Result<Vec<usize>>
    ensures ok { IfOk result (λ places. AreSeats [] places.items × (length places.items ≡ count)) }
    ensures memory { IsOkUnless result (Memory alloc_error) }
{
    let mut places = Vec::with_capacity(alloc, count)?;
    places.resize(count, 0)?;
    Ok(places)
}

// Inserts the index of each hash into a table of free entries.
fn seat_all(places: &mut Vec<usize>, hashes: &[u64])
    requires empty { AreSeats [] places.old.items }
    requires room { length hashes.now < length places.old.items }
    ensures seated { AreSeats hashes.now places.new.items }
    ensures same_length { length places.new.items ≡ length places.old.items }
{
    for i in 0..hashes.len() {
        let place = free_place(places.as_slice(), hashes[i]);
        places[place] = i + 1;
    }
}

// The first free entry on the probe sequence of a hash.
fn free_place(places: &[usize], hash: u64) -> usize
    requires { 0 < free_places places.now }
    ensures { IsFree places.now hash result }
{
    let mut step = 0;
    while places[place_at(hash, step, places.len())] != 0 {
        step += 1;
    }
    place_at(hash, step, places.len())
}

// The table entry of an index, by its hash.
fn place_of(places: &[usize], hash: u64, number: usize) -> usize
    requires { IsSeated places.now hash number }
    ensures within { result < length places.now }
    ensures there { get_or places.now result 0 ≡ number + 1 }
{
    let mut step = 0;
    while places[place_at(hash, step, places.len())] != number + 1 {
        step += 1;
    }
    place_at(hash, step, places.len())
}

// The table position that a probe for the hash visits at this step. The table length is a power of two.
#[inline]
fn place_at(hash: u64, step: usize, places: usize) -> usize
    requires { step < places }
    ensures value { result ≡ place_on hash step places }
    ensures within { result < places }
{
    let home = hash as usize & (places - 1);
    let to_end = places - home;
    if step < to_end {
        home + step
    } else {
        step - to_end
    }
}
