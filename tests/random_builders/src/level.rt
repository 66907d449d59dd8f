//! A builder as plain values: the rows that each level was pushed, and what its children hold, waiting or not.

use crate::makers::child_type;
use nest_memory::datatypes::physical_type::PhysicalType;
use nest_memory::datatypes::{DataType, IntegerType};
use nest_memory::error::{ArgumentError, Error};
use random::slot::Slot;
use std::alloc::Global;

const OTHER_KIND: Error = Error::InvalidArgumentError(ArgumentError::ItemType);

const OTHER_SIZE: Error = Error::InvalidArgumentError(ArgumentError::ItemSize);

const UNFINISHED: Error = Error::InvalidArgumentError(ArgumentError::Incomplete);

/// The rows of one level.
#[derive(Drop)]
pub enum Rows {
    /// Slots without children.
    Values(Vec<Slot>),
    /// Lists: whether each is valid, and where it ends among the items.
    Lists {
        valid: Vec<bool>,
        ends: Vec<usize>,
    },
    /// Lists of so many items.
    Sized {
        valid: Vec<bool>,
        size: usize,
    },
    Records {
        valid: Vec<bool>,
    },
    /// The index of each row's value, and how many indices a key can name.
    Dictionaries {
        indices: Vec<Option<usize>>,
        most: usize,
    },
}

/// A builder and those below it.
#[derive(Drop)]
pub struct Level {
    pub data_type: DataType,
    pub rows: Rows,
    pub children: Vec<Level>,
    alloc: Global,
}

impl Level {
    /// No row of a type.
    pub fn new(alloc: Global, data_type: &DataType) -> Result<Level, Error> {
        let mut children = Vec::new(alloc);
        let rows = match data_type.to_physical_type() {
            PhysicalType::List | PhysicalType::LargeList => Rows::Lists {
                valid: Vec::new(alloc),
                ends: Vec::new(alloc),
            },
            PhysicalType::FixedSizeList => Rows::Sized {
                valid: Vec::new(alloc),
                size: data_type.size().unwrap_or(0),
            },
            PhysicalType::Struct => Rows::Records {
                valid: Vec::new(alloc),
            },
            PhysicalType::Dictionary(keys) => Rows::Dictionaries {
                indices: Vec::new(alloc),
                most: key_count(keys),
            },
            _ => Rows::Values(Vec::new(alloc)),
        };
        if let Some(child) = child_type(data_type) {
            children.push(Level::new(alloc, child)?)?;
        }
        if let Rows::Records { .. } = rows {
            for field in data_type.fields() {
                children.push(Level::new(alloc, field.data_type())?)?;
            }
        }
        Ok(Level {
            data_type: data_type.clone(alloc)?,
            rows,
            children,
            alloc,
        })
    }

    pub fn len(&self) -> usize {
        match &self.rows {
            Rows::Values(slots) => slots.len(),
            Rows::Lists { valid, .. } | Rows::Sized { valid, .. } | Rows::Records { valid } => {
                valid.len()
            }
            Rows::Dictionaries { indices, .. } => indices.len(),
        }
    }

    pub fn is_valid(&self, i: usize) -> bool {
        match &self.rows {
            Rows::Values(slots) => !slots[i].is_null(),
            Rows::Lists { valid, .. } | Rows::Sized { valid, .. } | Rows::Records { valid } => {
                valid[i]
            }
            Rows::Dictionaries { indices, .. } => indices[i].is_some(),
        }
    }

    /// How many rows each child needs for the first n of these.
    fn needed(&self, n: usize) -> usize {
        match &self.rows {
            Rows::Values(_) => 0,
            Rows::Lists { ends, .. } => { if n == 0 { 0 } else { ends[n - 1] } }
            Rows::Sized { size, .. } => n * size,
            Rows::Records { .. } => n,
            Rows::Dictionaries { indices, .. } => indices[..n]
                .iter()
                .map(|index| index.map_or(0, |index| index + 1))
                .max()
                .unwrap_or(0),
        }
    }

    /// How many rows each child has at least and at most where one row more can be pushed, of a list with so many items.
    pub fn next_row(&self, items: usize) -> (usize, usize) {
        let needed = self.needed(self.len());
        match &self.rows {
            Rows::Lists { .. } => (needed + items, usize::MAX),
            Rows::Sized { size, .. } => (needed + size, needed + size),
            _ => (needed + 1, needed + 1),
        }
    }

    /// Whether each child is whole.
    pub fn has_complete_children(&self) -> bool {
        self.children.iter().all(|child| child.is_complete())
    }

    /// Whether no item waits for its row, and none is missing.
    pub fn is_complete(&self) -> bool {
        let needed = self.needed(self.len());
        self.has_complete_children() && self.children.iter().all(|child| child.len() == needed)
    }

    /// The slot of row i, of complete children.
    pub fn slot(&self, i: usize) -> Result<Slot, Error> {
        if !self.is_valid(i) {
            return Ok(Slot::Null);
        }
        match &self.rows {
            Rows::Values(slots) => Ok(slots[i].copied(self.alloc)?),
            Rows::Lists { .. } | Rows::Sized { .. } => Ok(Slot::List(self.children[0].slots(
                self.needed(i),
                self.needed(i + 1),
            )?)),
            Rows::Records { .. } => {
                let mut values = Vec::with_capacity(self.alloc, self.children.len())?;
                for child in &self.children {
                    values.push(child.slot(i)?)?;
                }
                Ok(Slot::Record(values))
            }
            Rows::Dictionaries { indices, .. } => self.children[0].slot(indices[i].unwrap_or(0)),
        }
    }

    /// The slots of rows that lie one after another.
    pub fn slots(&self, start: usize, end: usize) -> Result<Vec<Slot>, Error> {
        let mut slots = Vec::with_capacity(self.alloc, end - start)?;
        for i in start..end {
            slots.push(self.slot(i)?)?;
        }
        Ok(slots)
    }

    /// A null more, of a whole builder.
    pub fn push_null(&mut self) -> Result<(), Error> {
        let items = self.needed(self.len());
        match &mut self.rows {
            Rows::Values(slots) => slots.push(Slot::Null)?,
            Rows::Lists { valid, ends } => {
                valid.push(false)?;
                ends.push(items)?;
            }
            Rows::Sized { valid, size } => {
                valid.push(false)?;
                for _ in 0..*size {
                    self.children[0].push_null()?;
                }
            }
            Rows::Records { valid } => {
                valid.push(false)?;
                for child in &mut self.children {
                    child.push_null()?;
                }
            }
            Rows::Dictionaries { indices, .. } => indices.push(None)?,
        }
        Ok(())
    }

    /// A value more, of a type of its own, of a whole builder; or why it is rejected.
    pub fn push(&mut self, value: &Slot, value_type: &DataType) -> Result<(), Error> {
        if !self.accepts(value_type) {
            return Err(OTHER_KIND);
        }
        match &mut self.rows {
            Rows::Values(slots) => {
                if !has_size(&self.data_type, value) {
                    return Err(OTHER_SIZE);
                }
                slots.push(value.copied(self.alloc)?)?;
            }
            Rows::Dictionaries { indices, most } => {
                let index = match self.children[0].place_of(value) {
                    Some(index) => index,
                    None if self.children[0].len() == *most => return Err(Error::Overflow),
                    None => {
                        self.children[0].push(value, value_type)?;
                        self.children[0].len() - 1
                    }
                };
                indices.push(Some(index))?;
            }
            _ => return Err(OTHER_KIND),
        }
        Ok(())
    }

    /// A row more with all items below it, of a whole builder: those of a list are pushed first. A rejected one leaves nothing.
    pub fn push_item(&mut self, item: &Slot) -> Result<(), Error> {
        let rows = self.len();
        let answer = match item {
            Slot::Null => self.push_null(),
            Slot::List(items) => self.push_items(items.as_slice()),
            value => {
                let values = self.children.first().unwrap_or(self);
                let value_type = values.data_type.clone(self.alloc)?;
                self.push(value, &value_type)
            }
        };
        if answer.is_err() {
            self.truncate(rows);
        }
        answer
    }

    /// The items of a list, and a row of them.
    fn push_items(&mut self, items: &[Slot]) -> Result<(), Error> {
        for item in items {
            self.children[0].push_item(item)?;
        }
        match &self.rows {
            Rows::Sized { size, .. } if *size != items.len() => Err(OTHER_SIZE),
            _ => self.push_row(true),
        }
    }

    /// Each of several rows, or none.
    pub fn push_all(&mut self, items: &[Slot]) -> Result<(), Error> {
        let rows = self.len();
        for item in items {
            if let Err(error) = self.push_item(item) {
                self.truncate(rows);
                return Err(error);
            }
        }
        Ok(())
    }

    /// The rows of another builder of its type after its own, at each level.
    pub fn join(&mut self, other: &Level) -> Result<(), Error> {
        let items = self.needed(self.len());
        match (&mut self.rows, &other.rows) {
            (Rows::Values(slots), Rows::Values(more)) => {
                for slot in more {
                    slots.push(slot.copied(self.alloc)?)?;
                }
            }
            (Rows::Lists { valid, ends }, Rows::Lists { ends: more, .. }) => {
                for (i, end) in more.iter().enumerate() {
                    valid.push(other.is_valid(i))?;
                    ends.push(items + end)?;
                }
            }
            (Rows::Sized { valid, .. }, Rows::Sized { .. }) => {
                for i in 0..other.len() {
                    valid.push(other.is_valid(i))?;
                }
            }
            _ => return Err(OTHER_KIND),
        }
        for (child, more) in self.children.iter_mut().zip(other.children.iter()) {
            child.join(more)?;
        }
        Ok(())
    }

    /// Whether it takes values of the kind of that type.
    fn accepts(&self, value_type: &DataType) -> bool {
        match &self.rows {
            Rows::Values(_) => kind(&self.data_type) == kind(value_type),
            Rows::Dictionaries { .. } => self.children[0].accepts(value_type),
            _ => false,
        }
    }

    /// The index of a value among slots without children.
    pub fn place_of(&self, value: &Slot) -> Option<usize> {
        match &self.rows {
            Rows::Values(slots) => slots.iter().position(|slot| slot == value),
            _ => None,
        }
    }

    /// A row more of what waits in complete children; or why it is rejected.
    pub fn push_row(&mut self, row_is_valid: bool) -> Result<(), Error> {
        let needed = self.needed(self.len());
        let rows = self.len();
        let found = match self.children.first() {
            Some(child) => child.len(),
            None => 0,
        };
        let each_has_one_more = self.children.iter().all(|child| child.len() == rows + 1);
        match &mut self.rows {
            Rows::Lists { valid, ends } => {
                if found < needed {
                    return Err(UNFINISHED);
                }
                valid.push(row_is_valid)?;
                ends.push(found)?;
            }
            Rows::Sized { valid, size } => {
                if found < needed + *size {
                    return Err(UNFINISHED);
                }
                if found > needed + *size {
                    return Err(OTHER_SIZE);
                }
                valid.push(row_is_valid)?;
            }
            Rows::Records { valid } => {
                if !each_has_one_more {
                    return Err(UNFINISHED);
                }
                valid.push(row_is_valid)?;
            }
            _ => return Err(OTHER_KIND),
        }
        Ok(())
    }

    /// Keeps the first n rows of a whole builder, and below them what they need.
    pub fn truncate(&mut self, n: usize) {
        let needed = self.needed(n);
        match &mut self.rows {
            Rows::Values(slots) => slots.truncate(n),
            Rows::Lists { valid, ends } => {
                valid.truncate(n);
                ends.truncate(n);
            }
            Rows::Sized { valid, .. } | Rows::Records { valid } => valid.truncate(n),
            Rows::Dictionaries { indices, .. } => indices.truncate(n),
        }
        for child in &mut self.children {
            child.truncate(needed);
        }
    }

    /// The slots of a whole builder, which has none at any level then; or why it is rejected.
    pub fn freeze(&mut self) -> Result<Vec<Slot>, Error> {
        if !self.is_complete() {
            return Err(UNFINISHED);
        }
        let slots = self.slots(0, self.len())?;
        self.truncate(0);
        Ok(slots)
    }
}

/// How many values keys can name.
fn key_count(keys: IntegerType) -> usize {
    match keys {
        IntegerType::Int8 => 128,
        IntegerType::UInt8 => 256,
        IntegerType::Int16 => 32768,
        IntegerType::UInt16 => 65536,
        _ => usize::MAX,
    }
}

/// The kind of a plain value: strings are of one kind, and so are bytes.
fn kind(data_type: &DataType) -> PhysicalType {
    match data_type.to_physical_type() {
        PhysicalType::LargeUtf8 => PhysicalType::Utf8,
        PhysicalType::LargeBinary | PhysicalType::FixedSizeBinary => PhysicalType::Binary,
        other => other,
    }
}

/// Whether bytes have the size that a type of fixed-size binary values asks for.
fn has_size(data_type: &DataType, value: &Slot) -> bool {
    match (data_type.to_physical_type(), value) {
        (PhysicalType::FixedSizeBinary, Slot::Bytes(bytes)) => data_type.size()
            == Some(bytes.len()),
        _ => true,
    }
}
