//! The calls on a table.
ghost use Rattle.std.specs.Prelude.{◌≡◌, ◌<◌, length, IfOk, OnErr, Some, None, MatchResult, slice_index_or, slice_set, [], ◌∷◌, ◌++◌};
ghost use Rattle.faults.specs.Outcome.{told};
ghost use Rattle.lent_list.specs.Lent.{items, places, SameMemory};
ghost use Rattle.lyndon.specs.Entries.{no_entry};
ghost use Rattle.lyndon.specs.Theorems.{Listings};
ghost use Rattle.bracket_table.specs.Calls.{grow_outcome, look_outcome, find_outcome, Finds, complete_outcome, TellsComplete, Completed};
ghost use Rattle.bracket_table.specs.Faults.{table_fault};
ghost use Rattle.bracket_table.specs.Held.{IsNext};
ghost use Rattle.bracket_table.specs.Runs.{next};
ghost use Rattle.bracket_table.specs.Runs.Call.{Open, Grow, Look, Find};
ghost use Rattle.bracket_table.specs.Search.{entry_for};
ghost use Rattle.bracket_table.specs.Seen.{dimensions, view, memory, Sound, Adds};
ghost use Rattle.bracket_table.specs.Views.{fresh, shape_checked};

use crate::Table;
use crate::fault::TableFault;
use crate::shape::check_shape;
use coded_word::{CodedWord, Cursor, Shape};
use lent_list::{Full, LentList};
use lyndon::Entry;

impl<'a> Table<'a> {
    /// A closed table over entry memory, which keeps what it holds.
    pub fn fresh(lent: &'a mut [Entry]) -> Self
        ensures view { view result ≡ fresh (length lent.old) }
        ensures memory { memory result ≡ lent.old }
        ensures lender { result.entries.memory.ghost_name ≡ lent.entry.ghost_name }
    {
        Table {
            entries: LentList::new(lent),
            next: None,
        }
    }

    /// Makes k and n the shape, and empties the table. The memory keeps what it holds, and its places are used again.
    #[tactic(auto, using(crate::proofs::Growing::empty_listed, crate::proofs::Growing::empty_missing))]
    pub fn open(&mut self, k: u64, n: u64) -> Result<(), TableFault>
        ensures outcome { told (λ done. done) table_fault result ≡ shape_checked k n }
        ensures step { view self.new ≡ next (Open k n) (view self.old) }
        ensures memory { memory self.new ≡ memory self.old }
        ensures refused { OnErr result (self.new ≡ self.old) }
        ensures lender { SameMemory self.old.entries self.new.entries }
    {
        let shape = check_shape(k, n)?;
        self.entries.clear();
        self.next = Some(Cursor::start(shape));
        Ok(())
    }

    /// Adds, behind the last entry, the first Lyndon word in listing order that is no entry. Answers its number.
    #[tactic(auto, using(lyndon::proofs::Entries::listings, crate::proofs::Growing::grows, crate::proofs::Same::same_table))]
    pub fn grow(&mut self) -> Result<usize, TableFault>
        ensures outcome { told (λ i. i) table_fault result ≡ grow_outcome (view self.old) }
        ensures step { view self.new ≡ next Grow (view self.old) }
        ensures first { IfOk result (λ i. Adds (view self.old) (slice_index_or (view self.new).entries i no_entry)) }
        ensures memory { MatchResult result
            (λ i. memory self.new ≡ slice_set (memory self.old) i (slice_index_or (view self.new).entries i no_entry))
            (λ _. self.new ≡ self.old) }
        ensures few { IfOk result (λ i. i < 1496) }
        ensures listings { Listings }
        ensures lender { SameMemory self.old.entries self.new.entries }
    {
        let word = self.cursor()?.next().ok_or(TableFault::Complete)?;
        Ok(self.add(word)?)
    }

    /// The entry that has this number.
    // by `&mut`, as `find` and `line` too, so that the calls on a table have one form; `same` says that nothing changes
    #[tactic(auto, using(crate::proofs::Growing::table_sound))]
    pub fn look(&mut self, number: usize) -> Result<Entry, TableFault>
        ensures outcome { told (λ e. e) table_fault result ≡ look_outcome (view self.old) number }
        ensures step { view self.new ≡ next (Look number) (view self.old) }
        ensures same { self.new ≡ self.old }
        ensures sound { Sound (view self.old) }
    {
        self.cursor()?;
        self.entries.get(number).ok_or(TableFault::NoEntry)
    }

    /// The number of the entry with this word, or none where no entry has it.
    #[tactic(auto, using(crate::proofs::Finding::table_finds, crate::proofs::Found::table_found))]
    pub fn find(&mut self, letters: &[u8]) -> Result<Option<usize>, TableFault>
        ensures outcome { told (λ i. i) table_fault result ≡ find_outcome (view self.old) letters.now }
        ensures found { IfOk result (λ number. Finds (view self.old) letters.now number) }
        ensures step { view self.new ≡ next (Find letters.now) (view self.old) }
        ensures same { self.new ≡ self.old }
    {
        let cursor = self.cursor()?;
        let word = CodedWord::read(cursor.shape, letters)?;
        Ok(self.number_of(word))
    }

    /// Whether every Lyndon word of the shape that has at most so many letters is an entry.
    #[tactic(auto, using(crate::proofs::Lacking::completes))]
    pub fn is_complete_to(&self, letters: usize) -> Result<bool, TableFault>
        ensures outcome { told (λ yes. yes) table_fault result ≡ complete_outcome (view self.now) letters }
        ensures complete { IfOk result (λ yes. TellsComplete (view self.now) letters yes) }
    {
        let cursor = self.cursor()?;
        // no missing word is shorter than the place where the scan goes on, so often nothing need be scanned
        if usize::from(cursor.length) > letters {
            return Ok(true);
        }
        let missing = cursor.next();
        Ok(missing.is_none_or(|word| usize::from(word.length) > letters))
    }

    /// The greatest length up to which every Lyndon word of the shape is an entry.
    #[tactic(auto, using(crate::proofs::Lacking::completed))]
    pub fn complete_length(&self) -> Result<u8, TableFault>
        ensures { MatchResult result
            (λ m. Completed (view self.now) m)
            (λ f. ((view self.now).shape ≡ None) × (f ≡ TableFault.Closed)) }
    {
        let cursor = self.cursor()?;
        Ok(match cursor.next() {
            None => cursor.shape.n,
            Some(word) => word.length - 1,
        })
    }

    /// The shape, where the table is open.
    #[tactic(auto, using(crate::proofs::Growing::table_sound))]
    pub fn shape(&self) -> Result<Shape, TableFault>
        ensures shape { MatchResult result
            (λ s. (view self.now).shape ≡ Some (record { k = s.k; n = s.n }))
            (λ f. ((view self.now).shape ≡ None) × (f ≡ TableFault.Closed)) }
        ensures sound { Sound (view self.now) }
    {
        Ok(self.cursor()?.shape)
    }

    /// The entries, by their numbers.
    pub fn entries(&self) -> &[Entry]
        ensures { result.now ≡ (view self.now).entries }
    {
        self.entries.items()
    }

    /// Adds the entry of the next word behind the others, and answers its number.
    #[tactic(auto, using(crate::proofs::Growing::added_listed, crate::proofs::Growing::added_missing, crate::proofs::Growing::same_dimensions, crate::proofs::Same::same_table))]
    fn add(&mut self, word: CodedWord) -> Result<usize, Full>
        requires { IsNext self.old.next word }
        ensures added { MatchResult result
            (λ i. (i ≡ length (items self.old.entries))
            × (length (items self.old.entries) < length (places self.old.entries))
            × (items self.new.entries ≡ items self.old.entries ++ entry_for (items self.old.entries) word ∷ [])
            × (places self.new.entries ≡ slice_set (places self.old.entries) i (entry_for (items self.old.entries) word))
            × (dimensions self.new.next ≡ dimensions self.old.next))
            (λ _. length (items self.old.entries) ≡ length (places self.old.entries)) }
        ensures refused { OnErr result (self.new ≡ self.old) }
        ensures lender { SameMemory self.old.entries self.new.entries }
    {
        let number = self.entries.count();
        // before the entry is made, which takes a cut and two searches; `push` has room then
        if number == self.entries.size() {
            return Err(Full);
        }
        let entry = self.entry_of(word);
        self.entries.push(entry)?;
        self.next = Some(word.after());
        Ok(number)
    }

    /// Where the scan goes on, where the table is open.
    fn cursor(&self) -> Result<Cursor, TableFault>
        ensures { MatchResult result
            (λ c. self.now.next ≡ Some c)
            (λ f. (self.now.next ≡ None) × (f ≡ TableFault.Closed)) }
    {
        self.next.ok_or(TableFault::Closed)
    }
}
