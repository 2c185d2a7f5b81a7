//! A finite first-in-first-out queue that can go back.

ghost use Rattle.std.specs.Prelude.{◌≡◌, ◌<◌, [], ◌∷◌, ◌++◌, length, drop, slice_get, is_none, if◌then◌else◌};
ghost use Rattle.vt_parts.specs.inside.Ring.{IsRing, held, item_count, empty_ring, index, written, is_empty, is_full, pushed, push_answer, unpushed, first, popped, unpopped};

/// A first-in-first-out queue of at most `N` items, of fixed size. Each call that changes it has an inverse, which takes what the
/// call answered. Two rings are equal where their items stand in the same slots and the other slots hold the same values.
#[derive(Debug, Clone, Copy, PartialEq, Eq)]
pub struct Ring<T: Copy, const N: usize> {
    // The items lie from `head` on, round the end. The other slots have the blank, or items that were here before.
    items: [T; N],
    head: usize,
    len: usize,
}

impl<T: Copy, const N: usize> Ring<T, N> {
    /// An empty ring, with `blank` in each slot. No call answers it as an item.
    pub fn new(blank: T) -> Self
        ensures { result ≡ empty_ring blank }
    {
        Ring {
            items: [blank; N],
            head: 0,
            len: 0,
        }
    }

    /// Puts an item behind the others, and answers what stood in its slot before. Where the ring is full, it stays as it is, and
    /// the answer is `None`.
    pub fn push(&mut self, item: T) -> Option<T>
        ensures ring { self.new ≡ pushed self.old item }
        ensures answer { result ≡ push_answer self.old }
    {
        if self.is_full() {
            return None;
        }
        let index = self.index(self.len);
        let before = self.items.get(index).copied();
        self.write(index, item);
        self.len += 1;
        before
    }

    /// Undoes [`Ring::push`], of which it takes the answer: the last item goes, and what stood in its slot comes back. `None`
    /// changes nothing.
    pub fn unpush(&mut self, answer: Option<T>)
        ensures { self.new ≡ unpushed self.old answer }
    {
        if let Some(before) = answer {
            self.len = self.len.saturating_sub(1);
            let index = self.index(self.len);
            self.write(index, before);
        }
    }

    /// Takes the first item out, if there is one. Its slot keeps the value.
    pub fn pop(&mut self) -> Option<T>
        ensures ring { self.new ≡ popped self.old }
        ensures answer { result ≡ first self.old }
    {
        let first = self.front();
        if !self.is_empty() {
            self.head = self.index(1);
            self.len -= 1;
        }
        first
    }

    /// Undoes [`Ring::pop`], of which it takes the answer: the item before the first comes back. `None` changes nothing.
    pub fn unpop(&mut self, answer: Option<T>)
        ensures { self.new ≡ unpopped self.old answer }
    {
        if answer.is_some() && !self.is_full() {
            self.head = self.index(N - 1);
            self.len += 1;
        }
    }

    /// How many items there are.
    pub fn len(&self) -> usize
        ensures { result ≡ item_count self.now }
    {
        self.len
    }

    /// Whether there is no item.
    pub fn is_empty(&self) -> bool
        ensures { result ≡ is_empty self.now }
    {
        self.len == 0
    }

    /// Whether there is no room for an item.
    pub fn is_full(&self) -> bool
        ensures { result ≡ is_full self.now }
    {
        self.len >= N
    }

    /// The first item, if there is one.
    pub fn front(&self) -> Option<T>
        ensures { result ≡ first self.now }
    {
        if self.is_empty() {
            None
        } else {
            self.items.get(self.head).copied()
        }
    }

    // The index that is so many behind the first.
    fn index(&self, behind: usize) -> usize
        ensures { result ≡ index self.now behind }
    {
        let to_end = N.saturating_sub(self.head);
        if behind < to_end {
            self.head + behind
        } else {
            behind - to_end
        }
    }

    // Puts an item into a slot.
    fn write(&mut self, index: usize, item: T)
        ensures { self.new ≡ written self.old index item }
    {
        if index < N {
            self.items[index] = item;
        }
    }
}

/// What a ring's calls mean, for each kind of item and each room. A ring holds a list of items: a push adds one at its end where
/// there is room, a pop takes the first one away, and `unpush` and `unpop` give the very ring that was there before.
pub fn rings_are_queues<T: Copy, const N: usize>()
    ensures empty { (blank : T) → held (empty_ring {N = N} blank) ≡ [] }
    ensures begins { (blank : T) → 0 < N → IsRing (empty_ring {N = N} blank) }
    ensures count { (r : Ring T N) → IsRing r → length (held r) ≡ item_count r }
    ensures pushed { (r : Ring T N) (item : T) → IsRing r → IsRing (pushed r item) × (held (pushed r item) ≡ held r ++ (if is_full r then [] else item ∷ [])) }
    ensures first { (r : Ring T N) → IsRing r → first r ≡ slice_get (held r) 0 }
    ensures popped { (r : Ring T N) → IsRing r → IsRing (popped r) × (held (popped r) ≡ drop 1 (held r)) }
    ensures refused { (r : Ring T N) → IsRing r → is_none (push_answer r) ≡ is_full r }
    ensures nothing { (r : Ring T N) → IsRing r → is_none (first r) ≡ is_empty r }
    ensures unpushed { (r : Ring T N) (item : T) → IsRing r → unpushed (pushed r item) (push_answer r) ≡ r }
    ensures unpopped { (r : Ring T N) → IsRing r → unpopped (popped r) (first r) ≡ r }
{}
