ghost use Rattle.std.specs.Prelude.{◌≡◌, ◌+◌, ◌<◌, ◌≤◌, [], ◌∷◌, ◌++◌, reverse, length, IfOk, MatchResult};
ghost use Rattle.std.specs.Borrow.{Array, Lends, sem};
ghost use Rattle.faults.specs.TableIds.{capacity_of};
ghost use Rattle.tables.specs.Tables.{pushed, refitted};
ghost use Rattle.faults.specs.declared.fault.Fault.TheVariants.{Full};

use faults::fault::Fault;
use faults::table_id::TableId;
use std::alloc::{AllocError, Global};
use std::marker::Model;

/// A list with room for a fixed number of entries from the start.
#[derive(Drop)]
pub struct Table<T> {
    items: Vec<T>,
    id: TableId,
}

// Clauses see the entries, which table it is, the room for entries, which is the capacity of `items` and never changes, and
// where in memory the entries stand.
impl<T> Model for Table<T> {
    ghost use Rattle.std.specs.Prelude.{◌≤◌, vec_capacity};
    ghost use Rattle.std.specs.Vec.{vec_ptr};
    ghost use Rattle.tables.specs.Tables.{Contents};

    ghost Value = { Contents T };

    ghost view = { λ t. record { entries = t.items.items; id = t.id; limit = vec_capacity t.items; block = vec_ptr t.items } };

    ghost invariant = { λ t. vec_capacity t.items ≤ 2097151 };
}

impl<T> Table<T> {
    ghost use Rattle.tables.specs.contracts.table.Table.{the_row};

    /// An empty table for `length` entries, or for the most that `id` allows where that is fewer.
    pub fn new(heap: Global, id: TableId, length: usize) -> Result<Table<T>, AllocError>
        ensures { IfOk result (λ t. t ≡ record { entries = []; id = id; limit = capacity_of id length; block = t.block }) }
    {
        let items = Vec::with_capacity(heap, id.capacity(length))?;
        Ok(Table { items, id })
    }

    /// The number of entries.
    pub fn len(&self) -> usize
        ensures len { result ≡ length self.now.entries }
        ensures within { result ≤ self.now.limit }
        ensures few { result ≤ 2097151 }
    {
        self.items.len()
    }

    /// The number of entries that there is room for.
    pub fn limit(&self) -> usize
        ensures limit { result ≡ self.now.limit }
        ensures few { result ≤ 2097151 }
    {
        self.items.capacity()
    }

    /// Refuses where there is no room for `more` entries.
    pub fn check_room_for(&self, more: usize) -> Result<(), Fault>
        ensures cases { MatchResult result (λ _. length self.now.entries + more ≤ self.now.limit) (λ f. (self.now.limit < length self.now.entries + more) × (f ≡ Full self.now.id)) }
        ensures within { length self.now.entries ≤ self.now.limit }
    {
        if more > self.items.capacity() - self.items.len() {
            Err(Fault::Full(self.id))
        } else {
            Ok(())
        }
    }

    /// Refuses where there is no room for another entry.
    pub fn check_room(&self) -> Result<(), Fault>
        ensures { MatchResult result (λ _. length self.now.entries < self.now.limit) (λ f. (length self.now.entries ≡ self.now.limit) × (f ≡ Full self.now.id)) }
    {
        self.check_room_for(1)
    }

    /// The entries.
    pub fn as_slice(&self) -> &[T]
        ensures { result.now ≡ self.now.entries }
    {
        self.items.as_slice()
    }

    /// Adds `x` as the last entry, or hands it back where the table is full.
    pub fn push(&mut self, x: T) -> Result<(), T>
        ensures { MatchResult result (λ _. (length self.old.entries < self.old.limit) × (self.new ≡ pushed self.old x)) (λ y. (length self.old.entries ≡ self.old.limit) × (y ≡ x) × (self.new ≡ self.old)) }
    {
        if self.items.len() < self.items.capacity() {
            self.items.push_reserved(x);
            Ok(())
        } else {
            Err(x)
        }
    }

    /// Adds `x` as the last entry, or lets it go and refuses where the table is full.
    pub fn try_push(&mut self, x: T) -> Result<(), Fault>
    where
        T: Drop,
        ensures { MatchResult result (λ _. (length self.old.entries < self.old.limit) × (self.new ≡ pushed self.old x)) (λ f. (length self.old.entries ≡ self.old.limit) × (f ≡ Full self.old.id) × (self.new ≡ self.old)) }
    {
        self.push(x).map_err(|_| Fault::Full(self.id))
    }

    /// Adds `x` as the last entry, or lets it go where the table is full.
    pub fn append(&mut self, x: T)
    where
        T: Drop,
        ensures added { length self.old.entries < self.old.limit → self.new ≡ pushed self.old x }
        ensures full { self.old.limit ≤ length self.old.entries → self.new ≡ self.old }
    {
        let _ = self.push(x);
    }

    /// Adds copies of `xs` as the last entries, or nothing where there is no room for all of them.
    pub fn append_all(&mut self, xs: &[T])
    where
        T: Copy,
        ensures added { length self.old.entries + length xs.now ≤ self.old.limit → self.new ≡ record self.old { entries = self.old.entries ++ xs.now } }
        ensures full { self.old.limit < length self.old.entries + length xs.now → self.new ≡ self.old }
    {
        if self.check_room_for(xs.len()).is_ok() {
            // `extend_from_slice` does not promise that the capacity stays.
            for x in xs {
                self.items.push_reserved(*x);
            }
        }
    }

    /// Lets all entries go.
    pub fn clear(&mut self)
    where
        T: Drop,
        ensures { self.new ≡ record self.old { entries = []; block = self.new.block } }
    {
        self.items.clear();
    }

    /// The entries, to be changed in place.
    pub fn as_mut_slice(&mut self) -> &mut [T]
        ensures* follows { sem 𝓛 (Lends (the_row T.row) (Array T.row 0) self.entry result (refitted self.old)) }
        ensures value { result.now ≡ self.old.entries }
    {
        self.items.as_mut_slice()
    }

    /// Reverses the order of the entries.
    pub fn reverse(&mut self)
        ensures { self.new ≡ record self.old { entries = reverse self.old.entries; block = self.new.block } }
    {
        self.items.reverse();
    }
}
