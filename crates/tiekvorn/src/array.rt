//! The iterators of arrays, bitmaps and builders, struct and map arrays of columns, and the function `clone` of arrow2's module of this name.
pub use nest_array::{Steps, clone, map_of_entries, struct_of_columns};
pub use nest_build::fixed_size_binary::{
    MutableFixedSizeBinaryIter, MutableFixedSizeBinaryValuesIter,
};
pub use nest_flat::binary::iterator::{BinaryIter, BinaryValuesIter};
pub use nest_flat::boolean::iterator::{BooleanIter, BooleanValuesIter};
pub use nest_flat::iterator::{SlotItems, SlotsIter};
pub use nest_flat::primitive::iterator::{PrimitiveIter, PrimitiveValuesIter};
pub use nest_flat::utf8::iterator::{Utf8Iter, Utf8ValuesIter};
pub use nest_memory::bitmap::BitmapIter;
pub use nest_scan::{
    DictionaryIter, DictionaryIterTyped, DictionaryValuesIter, DictionaryValuesIterTyped,
    DoubleEnded, Elements, ElementsIter, FixedSizeBinaryIter, FixedSizeBinaryValuesIter,
    FixedSizeListIter, FixedSizeListValuesIter, KeysIter, KeysValuesIter, ListIter, ListValuesIter,
    MapIter, MapValuesIter, NullableElements, OptionalItems, StructIter, StructValueIter,
    TextOffset, Tried, TryElements, UnionIter,
};
