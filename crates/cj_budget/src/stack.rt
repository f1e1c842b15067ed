//! The open containers of a line: a stack with a limit, which remembers its greatest length.
//!
//! Contracts see the top first, since a scan looks at the innermost container. The code pushes at
//! the end. The items are in the first places of a `SmallVec`, and their count is beside it. So a
//! push or a pop changes one place and one number, and only a growth changes the vector. The first
//! 64 places are in the stack itself. So `push`, `reserve_all` and `is_reserved` have a clause of
//! their own for these. `reserve_all` requests exactly the missing memory, and fills it with
//! places.
ghost use Rattle.std.specs.Prelude.{◌≡◌, ◌+◌, ◌<◌, ◌≤◌, ◌↔◌, ◌++◌, ◌∷◌, [], length, take, drop, max, slice_get, slice_set};
ghost use Rattle.std.specs.Prelude.{IsTrue, IsOk, OnOk, OnErr};
ghost use Rattle.smallvec.specs.SmallVec.{small_vec_len};
ghost use Rattle.cj_budget.specs.Bounded.{IsNew, IsWithin, Becomes, Adds, Reserves};

use crate::bounded::Refused;
use crate::growth::{NoMemory, Refusals};
use smallvec::SmallVec;
use std::alloc::{AllocError, Global};
use std::marker::Model;

/// How many items are in the stack itself: the default depth limit, so it seldom allocates.
const INLINE: usize = 64;

/// A stack of numbers that never has more items than its limit. It remembers its peak, the greatest
/// number of items so far. Its first 64 items need no allocation. It counts its growths that
/// failed. Contracts see the top item first.
#[derive(Drop)]
pub struct Stack {
    /// The first `count` of these are the items, the top last.
    places: SmallVec<u32, INLINE>,
    count: usize,
    limit: usize,
    peak: usize,
    failed_growths: Refusals,
}

impl Model for Stack {
    ghost use Rattle.std.specs.Prelude.{◌≤◌, ℕ, take, reverse, nat_le};
    ghost use Rattle.std.specs.Coded.{coded_ℕ};
    ghost use Rattle.smallvec.specs.SmallVec.{small_vec_len};
    ghost use Rattle.cj_budget.specs.Bounded.{BoundedList, bounded_code};

    ghost Value = { BoundedList ℕ };

    ghost coded = { bounded_code coded_ℕ };

    ghost view = { λ s. record {
      elements = reverse (take s.count s.places.items);
      limit = s.limit;
      peak = s.peak;
      reserved = nat_le s.limit (small_vec_len s.places);
      failed_growths = s.failed_growths;
    } };

    ghost invariant = { λ s. (s.count ≤ s.peak) × (s.peak ≤ s.limit) × (s.count ≤ small_vec_len s.places)
        × (64 ≤ small_vec_len s.places) };
}

/// Sets the number at a place.
#[inline(always)]
fn set_place(places: &mut SmallVec<u32, INLINE>, index: usize, item: u32)
    requires { index < small_vec_len places.old }
    ensures items { places.new.items ≡ slice_set places.old.items index item }
    ensures capacity { places.new.capacity ≡ places.old.capacity }
{
    places.as_mut_slice()[index] = item;
}

/// Sets the number at a place, or adds it as the next place.
///
/// # Errors
///
/// `AllocError` if the allocation failed. Nothing changes.
fn put(places: &mut SmallVec<u32, INLINE>, index: usize, item: u32) -> Result<(), AllocError>
    requires { index ≤ small_vec_len places.old }
    ensures ok { OnOk result (take (index + 1) places.new.items ≡ take index places.old.items ++ item ∷ []) }
    ensures longer { small_vec_len places.old ≤ small_vec_len places.new }
    ensures room { index < small_vec_len places.old → IsOk result }
    ensures err { OnErr result (places.new ≡ places.old) }
{
    if index < places.len() {
        set_place(places, index, item);
        return Ok(());
    }
    places.push(item)?;
    Ok(())
}

impl Stack {
    /// Returns an empty stack. It allocates nothing.
    pub fn new(alloc: Global, limit: usize) -> Stack
        ensures { IsNew INLINE limit result }
    {
        Stack {
            places: SmallVec::from_buf(alloc, [0; INLINE]),
            count: 0,
            limit,
            peak: 0,
            failed_growths: Refusals::none(),
        }
    }

    /// Puts an item on top. Below 64 items it allocates nothing, and neither with memory reserved.
    ///
    /// # Errors
    ///
    /// `Full` or `Memory`, with the item. Nothing else changes, but the stack counts a lack of
    /// memory.
    pub fn push(&mut self, item: u32) -> Result<(), Refused<u32>>
        ensures adds { Adds self.old item (item ∷ self.old.elements) result self.new }
        ensures inline { length self.old.elements < 64 → length self.old.elements < self.old.limit → IsOk result }
    {
        if self.count == self.limit {
            return Err(Refused::Full(item));
        }
        match self
            .failed_growths
            .note(put(&mut self.places, self.count, item))
        {
            Ok(()) => {
                self.count += 1;
                self.peak = self.peak.max(self.count);
                Ok(())
            }
            Err(NoMemory) => Err(Refused::Memory(item)),
        }
    }

    /// Reserves memory for as many items as the limit allows. It requests memory once, or not at
    /// all if it is reserved, as is always true of a limit of at most 64.
    ///
    /// # Errors
    ///
    /// `NoMemory` if the allocation failed. The failed growth is counted, and nothing else changes.
    pub fn reserve_all(&mut self) -> Result<(), NoMemory>
        ensures reserves { Reserves self.old result self.new }
        ensures inline { self.old.limit ≤ 64 → IsOk result }
    {
        if self.is_reserved() {
            return Ok(());
        }
        let missing = self.limit - self.places.len();
        self.failed_growths
            .note(self.places.try_reserve_exact(missing))?;
        let _never_fails = self.places.resize(self.limit, 0);
        Ok(())
    }

    /// Returns whether memory is reserved for as many items as the limit allows.
    pub fn is_reserved(&self) -> bool
        ensures value { result ≡ self.now.reserved }
        ensures inline { self.now.limit ≤ 64 → IsTrue result }
        ensures within { IsWithin self.now }
    {
        self.places.len() >= self.limit
    }

    /// Puts an item on top of a stack that is not full and has its memory reserved. It allocates
    /// nothing and cannot fail.
    #[inline(always)]
    pub fn push_reserved(&mut self, item: u32)
        requires reserved { IsTrue self.old.reserved }
        requires fits { length self.old.elements < self.old.limit }
        ensures { Becomes self.old (item ∷ self.old.elements) self.new }
    {
        set_place(&mut self.places, self.count, item);
        self.count += 1;
        if self.count > self.peak {
            self.peak = self.count;
        }
    }

    /// Puts an item on top of such a stack and removes it, for a caller that never looks at it. So
    /// the item is not stored, and only the peak can change.
    #[inline(always)]
    pub fn push_and_pop(&mut self)
        requires reserved { IsTrue self.old.reserved }
        requires fits { length self.old.elements < self.old.limit }
        ensures peak { self.new ≡ record self.old { peak = max self.old.peak (length self.old.elements + 1) } }
        ensures within { IsWithin self.new }
    {
        if self.count == self.peak {
            self.peak += 1;
        }
    }

    /// Removes the top item and returns it. The peak and the reserved memory stay.
    #[inline(always)]
    pub fn pop(&mut self) -> Option<u32>
        ensures top { result ≡ slice_get self.old.elements 0 }
        ensures rest { Becomes self.old (drop 1 self.old.elements) self.new }
        ensures room { self.new.reserved ≡ self.old.reserved }
    {
        if self.count == 0 {
            return None;
        }
        self.count -= 1;
        Some(self.places.as_slice()[self.count])
    }

    /// Returns the top item.
    #[inline(always)]
    pub fn top(&self) -> Option<u32>
        ensures value { result ≡ slice_get self.now.elements 0 }
        ensures within { IsWithin self.now }
    {
        if self.count == 0 {
            None
        } else {
            Some(self.places.as_slice()[self.count - 1])
        }
    }

    /// Removes all items. The peak and the reserved memory stay.
    pub fn clear(&mut self)
        ensures cleared { Becomes self.old [] self.new }
        ensures room { self.new.reserved ≡ self.old.reserved }
    {
        self.count = 0;
    }

    /// Returns the number of items.
    pub fn len(&self) -> usize
        ensures value { result ≡ length self.now.elements }
        ensures within { IsWithin self.now }
    {
        self.count // the places from here on are free
    }

    /// Returns whether there is no item.
    pub fn is_empty(&self) -> bool
        ensures value { IsTrue result ↔ (self.now.elements ≡ []) }
        ensures within { IsWithin self.now }
    {
        self.len() == 0
    }

    /// Returns the greatest number of items so far.
    pub fn peak(&self) -> usize
        ensures value { result ≡ self.now.peak }
        ensures within { IsWithin self.now }
    {
        self.peak // never below the length, by the invariant
    }

    /// Returns the greatest number of items that is allowed.
    pub fn limit(&self) -> usize
        ensures value { result ≡ self.now.limit }
        ensures within { IsWithin self.now }
    {
        self.limit
    }
}
