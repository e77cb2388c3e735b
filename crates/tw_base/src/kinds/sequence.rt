// Lists on the heap, seen as the lists of what their items are seen as; lists of labels are in `label_list.rt`.

ghost use Rattle.std.specs.Prelude.{◌≡◌, [], ◌∷◌, ◌++◌, length, reverse, IfOk, OnOk, OnErr};

use crate::kinds::failure::NoMemory;
use std::alloc::Global;
use std::marker::Model;

/// A list on the heap. Contracts see it as the list of what its items are seen as.
#[derive(Drop, Debug)]
pub struct Sequence<T> {
    items: Vec<T>,
}

/// A list of bytes.
pub type Bytes = Sequence<u8>;

/// The events of a step in their order, each a list of bytes.
pub type EventList = Sequence<Bytes>;

impl<T> Model for Sequence<T> {
    ghost use Rattle.std.specs.Prelude.{List};

    ghost Value = { List T };

    ghost view = { λ s. s.items.items };
}

impl<T: Drop> Sequence<T> {
    /// No items. Takes no memory.
    pub fn new(alloc: Global) -> Self
        ensures { result ≡ [] }
    {
        Sequence {
            items: Vec::new(alloc),
        }
    }

    /// No items, with room for so many.
    pub fn with_capacity(alloc: Global, capacity: usize) -> Result<Self, NoMemory>
        ensures { IfOk result (λ items. items ≡ []) }
    {
        Ok(Self::from_vec(Vec::with_capacity(alloc, capacity)?))
    }

    /// The vector's items. Takes no memory.
    pub fn from_vec(items: Vec<T>) -> Self
        ensures { result ≡ items.items }
    {
        Sequence { items }
    }

    /// The items as a vector. Takes no memory.
    pub fn into_vec(self) -> Vec<T>
        ensures { result.items ≡ self }
    {
        self.items
    }

    /// The items.
    pub fn as_slice(&self) -> &[T]
        ensures { result.now ≡ self.now }
    {
        self.items.as_slice()
    }

    /// The number of items.
    pub fn len(&self) -> usize
        ensures { result ≡ length self.now }
    {
        self.items.len()
    }

    /// Appends the item; after want of memory the list is as before.
    pub fn push(&mut self, item: T) -> Result<(), NoMemory>
        ensures ok { OnOk result (self.new ≡ self.old ++ item ∷ []) }
        ensures err { OnErr result (self.new ≡ self.old) }
    {
        self.items.push(item)?;
        Ok(())
    }

    /// Turns the order of the items around.
    pub fn reverse(&mut self)
        ensures { self.new ≡ reverse self.old }
    {
        self.items.reverse();
    }
}

impl Sequence<u8> {
    /// The bytes of a slice.
    pub fn from_slice(alloc: Global, bytes: &[u8]) -> Result<Self, NoMemory>
        ensures { IfOk result (λ copy. copy ≡ bytes.now) }
    {
        Ok(Self::from_vec(Vec::from_slice(alloc, bytes)?))
    }

    /// Appends the bytes; after want of memory the list is as before.
    pub fn extend_from_slice(&mut self, more: &[u8]) -> Result<(), NoMemory>
        ensures ok { OnOk result (self.new ≡ self.old ++ more.now) }
        ensures err { OnErr result (self.new ≡ self.old) }
    {
        self.items.extend_from_slice(more)?;
        Ok(())
    }
}
