//! A `Vec` that contracts see as the list of its elements.

ghost use Rattle.std.specs.Prelude.{◌≡◌, ◌<◌, ◌↔◌, [], ◌∷◌, ◌++◌, length, slice_get, IsTrue, IfOk, IfErr, OnOk, OnErr, OnSome};
ghost use Rattle.std.specs.Option.{option_copied};
ghost use Rattle.std.specs.Slice.Iter.{iter_rest};

use crate::copied::Copied;
use std::alloc::{AllocError, AllocFailed, Global};
use std::marker::Model;
use std::slice;

/// A growing list. Contracts see the list of its elements, in order.
#[derive(Debug, Drop)]
pub struct Seq<T> {
    items: Vec<T>,
}

/// Bytes with no meaning of their own, as a payload's.
pub type Blob = Seq<u8>;

impl<T> Model for Seq<T> {
    ghost use Rattle.std.specs.Prelude.{List};
    ghost use Rattle.std.specs.Coded.{coded_list};

    ghost Value = { List T };

    ghost coded = { coded_list T.code };

    ghost view = { λ s. s.items.items };
}

impl<T> Seq<T> {
    /// The empty list. It takes no memory yet.
    pub fn new(alloc: Global) -> Self
        ensures { result ≡ [] }
    {
        Seq {
            items: Vec::new(alloc),
        }
    }

    pub fn from_vec(items: Vec<T>) -> Self
        ensures { result ≡ items.items }
    {
        Seq { items }
    }

    pub fn into_vec(self) -> Vec<T>
        ensures { result.items ≡ self }
    {
        self.items
    }

    pub fn as_slice(&self) -> &[T]
        ensures { result.now ≡ self.now }
    {
        self.items.as_slice()
    }

    pub fn len(&self) -> usize
        ensures { result ≡ length self.now }
    {
        self.items.len()
    }

    pub fn is_empty(&self) -> bool
        ensures { IsTrue result ↔ (self.now ≡ []) }
    {
        self.items.is_empty()
    }

    /// The element at `k`, counted from 0.
    pub fn get(&self, k: usize) -> Option<&T>
        ensures value { option_copied result ≡ slice_get self.now k }
        ensures within { OnSome result (k < length self.now) }
    {
        self.items.get(k)
    }

    pub fn iter(&self) -> slice::Iter<'_, T>
        ensures { iter_rest result ≡ self.now }
    {
        self.items.iter()
    }

    /// Adds an element at the end. Where memory runs out, nothing has changed and the element
    /// comes back.
    pub fn push(&mut self, item: T) -> Result<(), AllocFailed<T>>
        ensures ok { OnOk result (self.new ≡ self.old ++ item ∷ []) }
        ensures err { OnErr result (self.new ≡ self.old) }
        ensures returned { IfErr result (λ e. e.value ≡ item) }
    {
        self.items.push(item)
    }
}

impl Seq<u8> {
    /// Adds bytes at the end. Where memory runs out, nothing has changed.
    pub fn extend_from_slice(&mut self, bytes: &[u8]) -> Result<(), AllocError>
        ensures ok { OnOk result (self.new ≡ self.old ++ bytes.now) }
        ensures err { OnErr result (self.new ≡ self.old) }
    {
        self.items.extend_from_slice(bytes)
    }
}

impl<T: Copied> Copied for Seq<T> {
    fn copy(&self, alloc: Global) -> Result<Seq<T>, AllocError> {
        copy_all(alloc, self.items.as_slice())
    }
}

fn copy_all<T: Copied>(alloc: Global, source: &[T]) -> Result<Seq<T>, AllocError>
    ensures { IfOk result (λ copy. copy ≡ source.now) }
{
    let mut items = Vec::with_capacity(alloc, source.len())?;
    for item in source {
        items.push(item.copy(alloc)?)?;
    }
    Ok(Seq { items })
}

impl<T: PartialEq> PartialEq for Seq<T> {
    ghost use Rattle.std.specs.Cmp.Lexicographic.{pointwise, lists_per};

    ghost eq = { λ x y. pointwise T.eq x y };

    ghost laws = { lists_per T.laws };

    fn eq(&self, other: &Self) -> bool {
        self.items == other.items
    }
}

impl<T: Eq> Eq for Seq<T> {
    ghost use Rattle.std.specs.Cmp.Lexicographic.{lists_equiv};

    ghost laws = { lists_equiv T.Eq.laws };
}
