//! Lists that take no memory of their own while they are short.
ghost use Rattle.std.specs.Prelude.{◌≡◌, IfOk, ◌++◌, [], ◌∷◌, length, slice_set, OnOk, OnErr};

use smallvec::SmallVec;
use std::alloc::{AllocError, Global};
use std::marker::Model;

/// A list that takes memory of its own only for more than `N` elements. Contracts see it as the list of its elements.
#[derive(Debug, Drop)]
pub struct Short<T, const N: usize> {
    items: SmallVec<T, N>,
}

impl<T, const N: usize> Model for Short<T, N> {
    ghost use Rattle.std.specs.Prelude.{List};
    ghost use Rattle.std.specs.Coded.{coded_list};

    ghost Value = { List T };

    ghost coded = { coded_list T.code };

    ghost view = { λ a. a.items.items };
}

impl<T, const N: usize> Short<T, N> {
    pub fn as_slice(&self) -> &[T]
        ensures { result.now ≡ self.now }
    {
        self.items.as_slice()
    }

    pub fn len(&self) -> usize
        ensures { result ≡ length self.now }
    {
        self.items.len()
    }
}

impl<T: Copy + Default + Drop, const N: usize> Short<T, N> {
    /// The empty list, which takes no memory.
    pub fn new(alloc: Global) -> Short<T, N>
        ensures { result ≡ [] }
    {
        Short {
            items: SmallVec::new(alloc),
        }
    }

    /// The elements of a slice. Up to `N` of them take no memory.
    pub fn from_slice(alloc: Global, items: &[T]) -> Result<Short<T, N>, AllocError>
        ensures { IfOk result (λ list. list ≡ items.now) }
    {
        Ok(Short {
            items: SmallVec::from_slice(alloc, items)?,
        })
    }

    /// The elements of a vector, which takes no memory.
    pub fn from_vec(items: Vec<T>) -> Short<T, N>
        ensures { result ≡ items.items }
    {
        Short {
            items: SmallVec::from_vec(items),
        }
    }

    pub fn push(&mut self, item: T) -> Result<(), AllocError>
        ensures ok { OnOk result (self.new ≡ self.old ++ item ∷ []) }
        ensures err { OnErr result (self.new ≡ self.old) }
    {
        self.items.push(item)?;
        Ok(())
    }

    /// Writes an element. Past the end it does nothing.
    pub fn set(&mut self, at: usize, item: T)
        ensures { self.new ≡ slice_set self.old at item }
    {
        if at < self.items.len() {
            self.items.as_mut_slice()[at] = item;
        }
    }
}
