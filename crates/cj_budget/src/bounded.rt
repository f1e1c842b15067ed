//! A list with a limit, which remembers its greatest length.
//!
//! Three numbers are separate: the length, the peak (the greatest length so far) and the limit. The
//! list itself knows its peak, so that what was held within a call counts too. A function that
//! removes elements must store the peak first, as `clear` does. A push need not.
//!
//! The limit is checked before memory is requested. So the result is `Full` exactly if the list is
//! full, even if memory would be refused. A failed growth must leave the list, its peak and its
//! memory as they were. So memory is requested first, and the step after it cannot fail.
//!
//! The result of a request goes through `Refusals::note`, which counts failed growths. Contracts
//! see this count (`failed_growths`). They also see whether memory is reserved for the limit
//! (`reserved`), so that a caller knows that a call succeeds. Each call must keep that memory.
//! `Vec` may take more memory than the limit needs: the bound is about lengths alone.
//!
//! `reserve_all` makes one request for exactly the missing memory, as a plain reserve may take
//! twice as much. After it no call requests memory, so the reserved forms return no error.
ghost use Rattle.std.specs.Prelude.{◌≡◌, ◌+◌, ◌<◌, ◌≤◌, ◌↔◌, ◌++◌, ◌∷◌, [], length, IsTrue, IsOk, OnOk, OnErr, IsErrOf};
ghost use Rattle.std.specs.Prelude.{slice_set};
ghost use Rattle.cj_budget.specs.Bounded.{IsNew, IsWithin, FailsToGrow, Becomes, Adds, Reserves};

use crate::growth::{NoMemory, Refusals};
use std::alloc::Global;
use std::marker::Model;
use thiserror::Error;

/// Why an element was refused. It is returned.
#[derive(Clone, Copy, Debug, PartialEq, Eq)]
pub enum Refused<T> {
    /// The list has as many elements as its limit allows.
    Full(T),
    /// An allocation failed.
    Memory(T),
}

/// Why a slice was refused.
#[derive(Clone, Copy, Debug, PartialEq, Eq, Error)]
pub enum ExtendFault {
    /// The slice does not fit under the limit.
    #[error("the list is full")]
    Full,
    /// An allocation failed.
    #[error("out of memory")]
    Memory,
}

/// A list that never has more elements than its limit. It remembers its peak, the greatest number
/// of elements so far. It counts its growths that failed.
#[derive(Drop)]
pub struct Bounded<T: Copy> {
    items: Vec<T>,
    limit: usize,
    /// The greatest number of elements before the list was last emptied. The peak is the greater of
    /// this and the length, since elements are only added in between. So a push does not store the
    /// peak.
    earlier: usize,
    failed_growths: Refusals,
}

impl<T: Copy> Model for Bounded<T> {
    ghost use Rattle.std.specs.Prelude.{◌≤◌, max, vec_len, vec_capacity, nat_le};
    ghost use Rattle.cj_budget.specs.Bounded.{BoundedList, bounded_code};

    ghost Value = { BoundedList T };

    ghost coded = { bounded_code T.code };

    ghost view = { λ b. record {
      elements = b.items.items;
      limit = b.limit;
      peak = max b.earlier (vec_len b.items);
      reserved = nat_le b.limit (vec_capacity b.items);
      failed_growths = b.failed_growths;
    } };

    ghost invariant = { λ b. (vec_len b.items ≤ b.limit) × (b.earlier ≤ b.limit) };
}

impl<T: Copy> Bounded<T> {
    /// Returns an empty list. It allocates nothing.
    pub fn new(alloc: Global, limit: usize) -> Bounded<T>
        ensures { IsNew 0 limit result }
    {
        Bounded {
            items: Vec::new(alloc),
            limit,
            earlier: 0,
            failed_growths: Refusals::none(),
        }
    }

    /// Adds an element at the end. With memory reserved it allocates nothing.
    ///
    /// # Errors
    ///
    /// `Full` or `Memory`, with the element. Nothing else changes, but the list counts a lack of
    /// memory.
    pub fn push(&mut self, x: T) -> Result<(), Refused<T>>
        ensures { Adds self.old x (self.old.elements ++ x ∷ []) result self.new }
    {
        if self.items.len() == self.limit {
            return Err(Refused::Full(x));
        }
        match self.put(x) {
            Ok(()) => Ok(()),
            Err(NoMemory) => Err(Refused::Memory(x)),
        }
    }

    /// Adds an element at the end of a list that is not full. For callers that know this, it costs
    /// a test of the capacity and a store. With memory reserved it allocates nothing.
    ///
    /// # Errors
    ///
    /// `NoMemory` if the allocation failed. The failed growth is counted, and nothing else changes.
    #[inline(always)]
    pub fn put(&mut self, x: T) -> Result<(), NoMemory>
        requires { length self.old.elements < self.old.limit }
        ensures ok { OnOk result (Becomes self.old (self.old.elements ++ x ∷ []) self.new) }
        ensures err { OnErr result (FailsToGrow self.old self.new) }
        ensures room { IsTrue self.old.reserved → IsOk result }
    {
        self.failed_growths.note(self.items.try_reserve(1))?;
        let _ = self.items.push(x);
        Ok(())
    }

    /// Adds all elements of a slice at the end, or none. An empty slice needs no allocation, and
    /// neither does any slice with memory reserved.
    ///
    /// # Errors
    ///
    /// `Full` or `Memory`. Nothing else changes, but the list counts a lack of memory.
    pub fn extend_from_slice(&mut self, xs: &[T]) -> Result<(), ExtendFault>
        ensures ok { OnOk result (Becomes self.old (self.old.elements ++ xs.now) self.new) }
        ensures full { IsErrOf result ExtendFault.Full ↔ (self.old.limit < length self.old.elements + length xs.now) }
        ensures unchanged { IsErrOf result ExtendFault.Full → self.new ≡ self.old }
        ensures memory { IsErrOf result ExtendFault.Memory → FailsToGrow self.old self.new }
        ensures nothing { length xs.now ≡ 0 → IsOk result }
        ensures room { IsTrue self.old.reserved
            → length self.old.elements + length xs.now ≤ self.old.limit → IsOk result }
    {
        if self.limit - self.items.len() < xs.len() {
            return Err(ExtendFault::Full);
        }
        match self.failed_growths.note(self.items.try_reserve(xs.len())) {
            Ok(()) => {
                let _ = self.items.extend_from_slice(xs);
                Ok(())
            }
            Err(NoMemory) => Err(ExtendFault::Memory),
        }
    }

    /// Reserves memory for as many elements as the limit allows. It requests memory once, or not at
    /// all if it is reserved.
    ///
    /// # Errors
    ///
    /// `NoMemory` if the allocation failed. The failed growth is counted, and nothing else changes.
    pub fn reserve_all(&mut self) -> Result<(), NoMemory>
        ensures { Reserves self.old result self.new }
    {
        let missing = self.limit - self.items.len();
        self.failed_growths
            .note(self.items.try_reserve_exact(missing))
    }

    /// Returns whether memory is reserved for as many elements as the limit allows.
    pub fn is_reserved(&self) -> bool
        ensures value { result ≡ self.now.reserved }
        ensures within { IsWithin self.now }
    {
        self.items.capacity() >= self.limit
    }

    /// Adds an element at the end of a list that is not full and has its memory reserved. It
    /// allocates nothing and cannot fail.
    #[inline(always)]
    pub fn push_reserved(&mut self, x: T)
        requires reserved { IsTrue self.old.reserved }
        requires fits { length self.old.elements < self.old.limit }
        ensures { Becomes self.old (self.old.elements ++ x ∷ []) self.new }
    {
        self.items.push_reserved(x);
    }

    /// Adds all elements of a slice that fits under the limit, to a list with reserved memory. It
    /// allocates nothing and cannot fail.
    pub fn extend_reserved(&mut self, xs: &[T])
        requires reserved { IsTrue self.old.reserved }
        requires fits { length self.old.elements + length xs.now ≤ self.old.limit }
        ensures { Becomes self.old (self.old.elements ++ xs.now) self.new }
    {
        let _never_fails = self.items.extend_from_slice(xs);
    }

    /// Replaces the element at an index. The length, the peak and the memory stay. It allocates
    /// nothing.
    pub fn set(&mut self, i: usize, x: T)
        requires { i < length self.old.elements }
        ensures set { self.new ≡ record self.old { elements = slice_set self.old.elements i x } }
        ensures within { IsWithin self.new }
    {
        self.items[i] = x;
    }

    /// Removes all elements. The peak and the reserved memory stay.
    pub fn clear(&mut self)
        ensures cleared { Becomes self.old [] self.new }
        ensures room { self.new.reserved ≡ self.old.reserved }
    {
        self.earlier = self.peak();
        self.items.clear();
    }

    /// Returns the elements, in order.
    pub fn as_slice(&self) -> &[T]
        ensures value { result.now ≡ self.now.elements }
        ensures within { IsWithin self.now }
    {
        &self.items
    }

    /// Returns the number of elements.
    pub fn len(&self) -> usize
        ensures value { result ≡ length self.now.elements }
        ensures within { IsWithin self.now }
    {
        self.items.len()
    }

    /// Returns whether there is no element.
    pub fn is_empty(&self) -> bool
        ensures value { IsTrue result ↔ (self.now.elements ≡ []) }
        ensures within { IsWithin self.now }
    {
        self.items.is_empty()
    }

    /// Returns the greatest number of elements so far.
    pub fn peak(&self) -> usize
        ensures value { result ≡ self.now.peak }
        ensures within { IsWithin self.now }
    {
        self.earlier.max(self.items.len())
    }

    /// Returns the greatest number of elements that is allowed.
    pub fn limit(&self) -> usize
        ensures value { result ≡ self.now.limit }
        ensures within { IsWithin self.now }
    {
        self.limit
    }
}
