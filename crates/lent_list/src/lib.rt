//! One list over memory that the caller lends, for every kind of element.

#![tactic(auto)]

ghost use Rattle.std.specs.Prelude.{◌≡◌, ◌+◌, ◌<◌, ◌≤◌, [], ◌∷◌, ◌++◌, length, MatchOption, MatchResult, slice_set};
ghost use Rattle.std.specs.List.{slice_get};

/// The memory is too short for what is to be put into it.
#[derive(Clone, Copy, PartialEq, Eq, Debug)]
pub struct Full;

/// A list whose elements fill the front of a lent slice.
// A slice with a count beside it, and no `Vec`: the memory is lent, since the library has no heap.
#[derive(Drop)]
pub struct LentList<'a, T> {
    memory: &'a mut [T],
    count: usize,
    ghost within: { count ≤ length memory.now },
}

impl<'a, T: Copy> LentList<'a, T> {
    ghost use Rattle.lent_list.specs.Lent.{places, items, SameMemory, Refilled};

    /// An empty list. A place of the memory keeps what it holds until it is used.
    pub fn new(memory: &'a mut [T]) -> Self
        ensures items { items result ≡ [] }
        ensures places { places result ≡ memory.old }
        ensures lender { result.memory.ghost_name ≡ memory.entry.ghost_name }
    {
        LentList { memory, count: 0 }
    }

    /// The elements.
    pub fn items(&self) -> &[T]
        ensures value { result.now ≡ items self.now }
        ensures within { length result.now ≤ length (places self.now) }
    {
        &self.memory[..self.count]
    }

    /// How many elements there are: never more than the memory has places.
    pub fn count(&self) -> usize
        ensures value { result ≡ length (items self.now) }
        ensures within { result ≤ length (places self.now) }
    {
        self.items().len()
    }

    /// How many elements the memory can hold.
    pub fn size(&self) -> usize
        ensures { result ≡ length (places self.now) }
    {
        self.memory.len()
    }

    /// The element at a place, if there is one.
    pub fn get(&self, place: usize) -> Option<T>
        ensures { result ≡ slice_get (items self.now) place }
    {
        self.items().get(place).copied()
    }

    /// One element more, behind the others.
    pub fn push(&mut self, x: T) -> Result<(), Full>
        ensures done { MatchResult result
            (λ _. (length (items self.old) < length (places self.old))
            × (items self.new ≡ items self.old ++ x ∷ [])
            × (places self.new ≡ slice_set (places self.old) (length (items self.old)) x))
            (λ _. (length (items self.old) ≡ length (places self.old))
            × (self.new ≡ self.old)) }
        ensures lender { SameMemory self.old self.new }
    {
        if self.count() == self.size() {
            return Err(Full);
        }
        self.memory[self.count] = x;
        self.count += 1;
        Ok(())
    }

    /// Takes the last element, if there is one. Its place keeps what it holds.
    pub fn pop(&mut self) -> Option<T>
        ensures done { MatchOption result
            ((items self.old ≡ []) × (self.new ≡ self.old))
            (λ x. items self.old ≡ items self.new ++ x ∷ []) }
        ensures places { places self.new ≡ places self.old }
        ensures lender { SameMemory self.old self.new }
    {
        self.count = self.count.checked_sub(1)?;
        Some(self.memory[self.count])
    }

    /// More elements, behind the others.
    pub fn extend_from_slice(&mut self, elements: &[T]) -> Result<(), Full>
        ensures done { MatchResult result
            (λ _. (length (items self.old) + length elements.now ≤ length (places self.old))
            × Refilled self.old self.new (items self.old ++ elements.now))
            (λ _. (length (places self.old) < length (items self.old) + length elements.now)
            × (self.new ≡ self.old)) }
    {
        let start = self.count();
        if elements.len() > self.size() - start {
            return Err(Full);
        }
        let end = start + elements.len();
        self.memory[start..end].copy_from_slice(elements);
        self.count = end;
        Ok(())
    }

    /// Other elements in the place of all that there are.
    pub fn replace(&mut self, elements: &[T]) -> Result<(), Full>
        ensures done { MatchResult result
            (λ _. (length elements.now ≤ length (places self.old))
            × Refilled self.old self.new elements.now)
            (λ _. (length (places self.old) < length elements.now)
            × (self.new ≡ self.old)) }
    {
        if elements.len() > self.size() {
            return Err(Full);
        }
        self.clear();
        self.extend_from_slice(elements)
    }

    /// No elements. The memory keeps what it holds.
    pub fn clear(&mut self)
        ensures items { items self.new ≡ [] }
        ensures places { places self.new ≡ places self.old }
        ensures lender { SameMemory self.old self.new }
    {
        self.count = 0;
    }

    /// The memory, handed on.
    pub fn into_memory(self) -> &'a mut [T]
        ensures value { result.now ≡ places self.entry }
        ensures lender { result.ghost_name ≡ self.entry.memory.ghost_name }
    {
        let LentList { memory, count: _ } = self;
        memory
    }
}
