// A list of at most MOST items, which lie in the value itself, so that it is Copy where they are.
#![tactic(auto)]

ghost use Rattle.std.specs.Prelude.{◌≡◌, ◌+◌, ◌<◌, ◌≤◌, ◌++◌, List, [], ◌∷◌, insert, length};

use std::marker::Model;
use std::ops::DerefSlice;

// Kept: an array with a count, since the kit's ArrayVec is not Copy.
#[derive(Clone, Copy)]
pub struct Few<T, const MOST: usize> {
    places: [T; MOST],
    count: usize,
}

impl<T, const MOST: usize> Model for Few<T, MOST> {
    ghost use Rattle.std.specs.Prelude.{◌≡◌, ℕ, ◌≤◌, ◌++◌, drop, length, take};
    ghost use Rattle.std.proofs.Common.{length-take-le, subst, sym, take-append-drop};
    ghost use Rattle.few.specs.Few.{Few as Items, few_code};

    ghost Value = { Items T };

    ghost coded = { few_code T.code };

    ghost view = { λ v. record { items = take v.count v.places; spare = drop v.count v.places } };

    ghost invariant = { λ v. (v.count ≤ MOST) × (length v.places ≡ MOST) };

    ghost inverse = { λ v. record { places = v.items ++ v.spare; count = length v.items } };

    ghost inverse_ok = { λ v h i. record {
      places = take-append-drop v.count v.places i;
      count = length-take-le v.count v.places (subst (λ (n : ℕ). v.count ≤ n) (sym h.1) h.0) i;
    } };
}

impl<T: Copy + Default, const MOST: usize> Few<T, MOST> {
    pub fn new() -> Self
        ensures { result.items ≡ [] }
    {
        Few {
            places: [T::default(); MOST],
            count: 0,
        }
    }
}

impl<T, const MOST: usize> Few<T, MOST> {
    pub fn len(&self) -> usize
        ensures value { result ≡ length self.now.items }
        ensures fits { result ≤ MOST }
    {
        self.as_slice().len()
    }

    pub fn as_slice(&self) -> &[T]
        ensures value { result.now ≡ self.now.items }
        ensures fits { length result.now ≤ MOST }
    {
        self.deref()
    }
}

impl<T: Copy, const MOST: usize> Few<T, MOST> {
    // Puts the item behind the last.
    pub fn push(&mut self, item: T)
        requires { length self.old.items < MOST }
        ensures items { self.new.items ≡ self.old.items ++ item ∷ [] }
        ensures len { length self.new.items ≡ length self.old.items + 1 }
    {
        self.places[self.count] = item;
        self.count += 1;
    }

    // Puts the item before the one at `at`, which moves up with those behind it.
    pub fn insert(&mut self, at: usize, item: T)
        requires in_bounds { at ≤ length self.old.items }
        requires room { length self.old.items < MOST }
        ensures items { self.new.items ≡ insert self.old.items at item }
        ensures len { length self.new.items ≡ length self.old.items + 1 }
    {
        let last = shift_in(&mut self.places[..self.count], at, item);
        self.push(last);
    }
}

// Puts the item at `at`, and each from there on where the next one stood; the last is given back. A
// loop that holds one item, since std's rotation asks `memmove` of a C library, and the header
// promises that a host needs none.
fn shift_in<T: Copy>(list: &mut [T], at: usize, item: T) -> T
    requires { at ≤ length list.old }
    ensures { list.new ++ result ∷ [] ≡ insert list.old at item }
{
    let mut held = item;
    for i in at..list.len() {
        let next = list[i];
        list[i] = held;
        held = next;
    }
    held
}

impl<T, const MOST: usize> DerefSlice for Few<T, MOST> {
    type Elem = T;

    ghost deref_gives = { λ few slice. (slice ≡ few.items) × (length slice ≤ MOST) };

    fn deref(&self) -> &[T] {
        &self.places[..self.count]
    }
}
