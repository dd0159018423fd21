// A list in fixed memory.
ghost use Rattle.std.specs.Prelude.{◌≡◌, ◌≤◌, length};

use crate::{Full, Record};
use std::alloc::AllocError;

// Up to N items, in the first places of fixed memory.
pub struct Slots<T, const N: usize> {
    slots: [T; N],
    count: usize,
    ghost whole: { length slots ≡ N },
    ghost few: { count ≤ N },
}

impl<T: Copy, const N: usize> Slots<T, N> {
    ghost use Rattle.std.specs.Prelude.{[], take};
    ghost use Rattle.table.specs.Slots.{items, Pushed};

    // No items. The places not in use hold `unused`.
    pub fn new(unused: T) -> Self
        ensures { items result ≡ [] }
    {
        Slots {
            slots: [unused; N],
            count: 0,
        }
    }

    // The first `count` of these, or all where there are fewer.
    pub fn first(slots: [T; N], count: usize) -> Self
        ensures { items result ≡ take count slots }
    {
        let count = count.min(N);
        Slots { slots, count }
    }

    // The items, in their order.
    pub fn as_slice(&self) -> &[T]
        ensures items { result.now ≡ items self.now }
        ensures few { length result.now ≤ N }
    {
        &self.slots[..self.count]
    }

    // Adds the item after the others.
    pub fn push(&mut self, item: T) -> Result<(), Full>
        ensures { Pushed self.old item self.new result }
    {
        if self.count == N {
            return Err(Full);
        }
        self.slots[self.count] = item;
        self.count += 1;
        Ok(())
    }
}

// By hand, since `Clone` cannot be derived for a generic struct with a ghost field.
impl<T: Copy, const N: usize> Clone for Slots<T, N> {
    ghost use Rattle.std.specs.Prelude.{⊤};

    ghost is_clone = { λ x y. y ≡ x };

    ghost is_infallible = { λ _. ⊤ };

    fn clone(&self) -> Result<Slots<T, N>, AllocError> {
        Ok(*self)
    }
}

impl<T: Copy, const N: usize> Copy for Slots<T, N> {}

// Lists are equal if their items are, whatever the places not in use hold.
impl<T: Copy + PartialEq, const N: usize> PartialEq for Slots<T, N> {
    ghost use Rattle.std.specs.Cmp.{on_per};
    ghost use Rattle.std.specs.Cmp.Lexicographic.{lists_per, pointwise};
    ghost use Rattle.std.specs.Ordering.{on};
    ghost use Rattle.table.specs.Slots.{items};

    ghost eq = { on items (pointwise T.eq) };

    ghost laws = { on_per items (lists_per T.PartialEq.laws) };

    fn eq(&self, other: &Slots<T, N>) -> bool {
        self.as_slice() == other.as_slice()
    }
}

impl<T: Copy + Eq, const N: usize> Eq for Slots<T, N> {
    ghost use Rattle.std.specs.Cmp.{on_equiv};
    ghost use Rattle.std.specs.Cmp.Lexicographic.{lists_equiv};
    ghost use Rattle.table.specs.Slots.{items};

    ghost laws = { on_equiv items (lists_equiv T.Eq.laws) };
}

// Items in rising order of their keys. What is found, put in or taken out is said of such, as in a slice.
impl<R: Record, const N: usize> Slots<R, N> {
    ghost use Rattle.table.specs.Table.{Rising, lookup};
    ghost use Rattle.table.specs.Slots.{items, PutAnswer, TakeAnswer};

    // The item of the key.
    pub fn get(&self, sought: R::Key) -> Option<R>
        ensures { Rising R.key R.less (items self.now) → result ≡ lookup R.key R.less (items self.now) sought }
    {
        crate::get(&self.slots, self.count, sought)
    }

    // Puts the item in its place, instead of the one of its key if there is one.
    pub fn put(&mut self, row: R) -> Result<(), Full>
        ensures { PutAnswer R.key R.less self.old row self.new result }
    {
        let mut slots = self.slots;
        let count = crate::put(&mut slots, self.count, row)?;
        *self = Slots { slots, count };
        Ok(())
    }

    // Takes the item of the key out.
    pub fn take_out(&mut self, sought: R::Key) -> Option<R>
        ensures { TakeAnswer R.key R.less self.old sought self.new result }
    {
        let mut slots = self.slots;
        let row = crate::take_out(&mut slots, self.count, sought)?;
        *self = Slots {
            slots,
            count: self.count - 1,
        };
        Some(row)
    }
}
