//! The hash of dictionary values.
ghost use Rattle.std.specs.Prelude.{◌≡◌, fold};
ghost use Rattle.std.specs.Hash.DefaultHasher as sip;
ghost use Rattle.nest_flat.specs.AnyNative.{native_kind, native_numbers};
ghost use Rattle.nest_build.specs.Hashes.{native_writes, value_hash};
ghost use Rattle.nest_build.specs.Words.{plain_value};

use nest_flat::any_native::AnyNative;
use nest_flat::plain::Plain;
use std::hash::{DefaultHasher, Hash, Hasher};

/// Returns the hash of a value: std's `DefaultHasher` with its fixed keys.
#[tactic(auto, unfolding(crate::specs::Hashes::value_hash))]
pub(super) fn hash_of(value: &Plain<'_>) -> u64
    ensures { result ≡ value_hash (plain_value value.now) }
{
    let mut state = DefaultHasher::new();
    match value {
        Plain::Boolean(truth) => truth.hash(&mut state),
        Plain::Native(number) => feed(number, &mut state),
        Plain::Text(text) => text.hash(&mut state),
        Plain::Bytes(bytes) => bytes.hash(&mut state),
    }
    state.finish()
}

// Feeds the integers of a native value to the hasher, in order.
fn feed(number: &AnyNative, state: &mut DefaultHasher)
    ensures { state.new ≡ fold sip.write state.old (native_writes (native_kind number.now) (native_numbers number.now)) }
{
    match number {
        AnyNative::Int8(x) => x.hash(state),
        AnyNative::Int16(x) => x.hash(state),
        AnyNative::Int32(x) => x.hash(state),
        AnyNative::Int64(x) => x.hash(state),
        AnyNative::Int128(x) => x.hash(state),
        AnyNative::Int256(x) => {
            x.high.hash(state);
            x.low.hash(state);
        }
        AnyNative::UInt8(x) => x.hash(state),
        AnyNative::UInt16(x) => x.hash(state),
        AnyNative::UInt32(x) => x.hash(state),
        AnyNative::UInt64(x) => x.hash(state),
        AnyNative::DaysMs(x) => {
            x.days.hash(state);
            x.milliseconds.hash(state);
        }
        AnyNative::MonthDayNano(x) => {
            x.months.hash(state);
            x.days.hash(state);
            x.ns.hash(state);
        }
    }
}
