ghost use Rattle.std.specs.Prelude.{◌≡◌, ◌+◌, ◌-◌, ◌*◌, ◌^◌, ◌<◌, ◌≤◌, [], ◌∷◌, ◌++◌, All, IfOk, length, take};
ghost use Rattle.asc_depvec.specs.Tracer.{places_of};

use std::alloc::{AllocError, Global};
use std::marker::Model;

/// The touched places, in the order of their first touches, as items: the four places of a word that was touched as a
/// whole, or one place. All of its memory is filled at first. So an item is listed by plain writes, with no look at a
/// capacity.
///
/// Contracts see it as the list of the items, and how many places they may have.
#[derive(Drop)]
pub(crate) struct Touched {
    items: Vec<u32>,
    // How many of `items` are in use.
    count: usize,
    // How many places more may be listed.
    left: usize,
}

impl Model for Touched {
    ghost use Rattle.std.specs.Prelude.{length, take};
    ghost use Rattle.asc_depvec.specs.Touched.{Listing, IsTouched};

    ghost Value = { Listing };

    ghost view = { λ t. record { items = take t.count t.items.items; cap = length t.items.items } };

    ghost invariant = { IsTouched };
}

impl Touched {
    /// An empty list with room for `cap` places.
    pub(crate) fn none(alloc: Global, cap: usize) -> Result<Touched, AllocError>
        ensures { IfOk result (λ touched. touched ≡ record { items = []; cap = cap }) }
    {
        Ok(Touched {
            items: vec![in alloc; 0; cap]?,
            count: 0,
            left: cap,
        })
    }

    /// How many places there are.
    #[inline]
    pub(crate) fn len(&self) -> usize
        ensures { result ≡ length (places_of self.now.items) }
    {
        self.items.len() - self.left
    }

    /// How many places more may be listed.
    #[inline]
    pub(crate) fn room(&self) -> usize
        ensures { result ≡ self.now.cap - length (places_of self.now.items) }
    {
        self.left
    }

    /// All items.
    #[inline]
    pub(crate) fn all(&self) -> &[u32]
        ensures { result.now ≡ self.now.items }
    {
        &self.items[..self.count]
    }

    /// Lists one place more.
    #[inline]
    pub(crate) fn push(&mut self, place: u32)
        requires low { place < 2 ^ 31 }
        requires room { length (places_of self.old.items) < self.old.cap }
        ensures items { self.new.items ≡ self.old.items ++ 2 * place ∷ [] }
        ensures cap { self.new.cap ≡ self.old.cap }
    {
        put_item(&mut self.items, self.count, 2 * place);
        self.count += 1;
        self.left -= 1;
    }

    /// Lists the four places of a word.
    #[inline]
    pub(crate) fn push_word(&mut self, place: u32)
        requires low { place < 2 ^ 31 }
        requires room { length (places_of self.old.items) + 4 ≤ self.old.cap }
        ensures items { self.new.items ≡ self.old.items ++ (2 * place + 1) ∷ [] }
        ensures cap { self.new.cap ≡ self.old.cap }
    {
        put_item(&mut self.items, self.count, 2 * place + 1);
        self.count += 1;
        self.left -= 4;
    }

    /// Takes the last place off the list, and answers it.
    pub(crate) fn pop(&mut self) -> u32
        requires some { 0 < length (places_of self.old.items) }
        requires low { All (λ place. place < 2 ^ 30) (places_of self.old.items) }
        ensures places { places_of self.old.items ≡ places_of self.new.items ++ result ∷ [] }
        ensures cap { self.new.cap ≡ self.old.cap }
    {
        let last = self.count - 1;
        let item = self.items[last];
        let place = item / 2;
        self.left += 1;
        if item % 2 == 1 {
            put_three(&mut self.items, last, place);
            self.count += 2;
            place + 3
        } else {
            self.count = last;
            place
        }
    }

    /// Takes all places off the list.
    #[inline]
    pub(crate) fn clear(&mut self)
        ensures items { self.new.items ≡ [] }
        ensures cap { self.new.cap ≡ self.old.cap }
    {
        self.count = 0;
        self.left = self.items.len();
    }
}

// Puts an item at number `at`.
#[inline]
fn put_item(items: &mut [u32], at: usize, item: u32)
    requires { at < length items.old }
    ensures { take (at + 1) items.new ≡ take at items.old ++ item ∷ [] }
{
    items[at] = item;
}

// Puts the first three places of a word at number `at`, each as an item.
fn put_three(items: &mut [u32], at: usize, place: u32)
    requires low { place < 2 ^ 30 }
    requires room { at + 3 ≤ length items.old }
    ensures { take (at + 3) items.new
        ≡ take at items.old ++ 2 * place ∷ (2 * (place + 1)) ∷ (2 * (place + 2)) ∷ [] }
{
    items[at] = 2 * place;
    items[at + 1] = 2 * (place + 1);
    items[at + 2] = 2 * (place + 2);
}
