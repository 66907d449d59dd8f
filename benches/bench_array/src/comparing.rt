//! Arrays found equal to others that were made like them.
ghost use Rattle.std.specs.Prelude.{◌<◌};

use crate::arrays;
use anyhow::Result;
use bench_tools::{begin, report};
use nest_array::any::AnyArray;
use nest_array::equal::equal;
use nest_memory::error::Error;
use std::alloc::Global;
use std::io;
use std::rt::Clock;

const FEW: usize = 8000;

const ITEMS: usize = 8_000_000;

/// What is compared. Numbers and lists hold the same number of items; of the others an eighth as many rows are compared.
#[derive(Clone, Copy)]
enum Kind {
    Numbers,
    ShortLists,
    LongLists,
    ListsOfLists,
    FixedSizeLists,
    Records,
    Maps,
    TextsByKeys,
    SparseUnions,
    DenseUnions,
}

const KINDS: [Kind; 10] = [
    Kind::Numbers,
    Kind::ShortLists,
    Kind::LongLists,
    Kind::ListsOfLists,
    Kind::FixedSizeLists,
    Kind::Records,
    Kind::Maps,
    Kind::TextsByKeys,
    Kind::SparseUnions,
    Kind::DenseUnions,
];

impl Kind {
    fn name(self) -> &'static str {
        match self {
            Kind::Numbers => "  numbers",
            Kind::ShortLists => "  lists of 8 numbers",
            Kind::LongLists => "  lists of 1000 numbers",
            Kind::ListsOfLists => "  lists of 10 lists of 8 numbers",
            Kind::FixedSizeLists => "  lists of a fixed size of 8 numbers",
            Kind::Records => "  records of a number and a string",
            Kind::Maps => "  maps of 4 entries from a number to a string",
            Kind::TextsByKeys => "  strings by keys of 32 bits over 1000 of them",
            Kind::SparseUnions => "  sparse unions of numbers and strings",
            Kind::DenseUnions => "  dense unions of numbers and strings",
        }
    }

    /// How many items or rows there are, of n items.
    fn count(self, n: usize) -> usize {
        match self {
            Kind::Numbers | Kind::ShortLists | Kind::LongLists => n,
            Kind::ListsOfLists | Kind::FixedSizeLists => n,
            _ => n / 8,
        }
    }

    /// An array of n items, each tenth row and item null where `nulls` says so; unions have no nulls.
    fn made(self, alloc: Global, n: usize, nulls: bool) -> Result<AnyArray, Error> {
        match self {
            Kind::Numbers => arrays::numbers(alloc, n, nulls),
            Kind::ShortLists => lists(alloc, n, 8, nulls),
            Kind::LongLists => lists(alloc, n, 1000, nulls),
            Kind::ListsOfLists => lists_of_lists(alloc, n, nulls),
            Kind::FixedSizeLists => fixed_size_lists(alloc, n, 8, nulls),
            Kind::Records => arrays::records(alloc, n / 8, nulls),
            Kind::Maps => arrays::maps(alloc, n / 8, 4, nulls),
            Kind::TextsByKeys => arrays::texts_by_keys(alloc, n / 8, nulls),
            Kind::SparseUnions => arrays::sparse_unions(alloc, n / 8),
            Kind::DenseUnions => arrays::dense_unions(alloc, n / 8),
        }
    }
}

/// Lists of so many numbers each, n in all.
fn lists(alloc: Global, n: usize, size: usize, nulls: bool) -> Result<AnyArray, Error>
    requires { 0 < size }
{
    let items = arrays::numbers(alloc, n, nulls)?;
    arrays::lists(alloc, n / size, size, nulls, items)
}

/// Lists of ten lists of eight numbers each, n in all.
fn lists_of_lists(alloc: Global, n: usize, nulls: bool) -> Result<AnyArray, Error> {
    let rows = lists(alloc, n, 8, nulls)?;
    arrays::lists(alloc, n / 80, 10, nulls, rows)
}

/// The same as `lists`, of fixed size.
fn fixed_size_lists(alloc: Global, n: usize, size: usize, nulls: bool) -> Result<AnyArray, Error>
    requires { 0 < size }
{
    let items = arrays::numbers(alloc, n, nulls)?;
    arrays::fixed_size_lists(alloc, n / size, size, nulls, items)
}

fn compare<R: Clock + Print>(
    rt: &R,
    kind: Kind,
    left: &AnyArray,
    right: &AnyArray,
    n: usize,
    measured: bool,
) -> io::Result<()> {
    let begun = begin(rt, measured)?;
    let same = equal(left, right);
    report(rt, kind.name(), same, begun, kind.count(n))
}

fn compare_with_like<R: Clock + Print + AllocGlobal>(
    rt: &R,
    kind: Kind,
    array: &AnyArray,
    n: usize,
    nulls: bool,
    measured: bool,
) -> Result<()> {
    let like = kind.made(rt.alloc(), n, nulls)?;
    let told = compare(rt, kind, array, &like, n, measured);
    drop(like);
    told?;
    Ok(())
}

fn run_kind<R: Clock + Print + AllocGlobal>(
    rt: &R,
    kind: Kind,
    nulls: bool,
    measured: bool,
) -> Result<()> {
    let n = if measured { ITEMS } else { FEW };
    let array = kind.made(rt.alloc(), n, nulls)?;
    let told = compare_with_like(rt, kind, &array, n, nulls, measured);
    drop(array);
    told
}

/// Compares arrays of each kind, without a null and with a tenth of rows and items null.
pub fn run<R: Clock + Print + AllocGlobal>(rt: &R, measured: bool) -> Result<()> {
    println!(rt; "without nulls, found equal")?;
    for kind in KINDS {
        run_kind(rt, kind, false, measured)?;
    }
    println!(rt; "a tenth null, found equal")?;
    for kind in KINDS {
        run_kind(rt, kind, true, measured)?;
    }
    Ok(())
}
