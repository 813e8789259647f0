ghost use Rattle.std.specs.Prelude.{◌≡◌, ℕ, ◌+◌, ◌-◌, ◌<◌, ◌≤◌, IfOk, MatchResult, OnErr, OnOk, slice_index};
ghost use Rattle.ranges.specs.Spans.{no_spans, count, endpoints, last_end, range_of, end_fault, with_end, index_reversed, target_fault, reversed_ends, target_reversed};
ghost use Rattle.faults.specs.Outcomes.{Outcome, Refuses};
ghost use Rattle.faults.specs.TableIds.{capacity_of};
ghost use Rattle.faults.specs.declared.fault.Fault.TheVariants.{OutOfRange};
ghost use Rattle.faults.specs.declared.table_id.TableId.TheVariants.{Ranges as Alone};

use faults::fault::Fault;
use faults::table_id::TableId;
use std::alloc::{AllocError, Global};
use std::marker::Model;
use std::mem;
use tables::table::Table;

/// Contiguous ranges over a list: the first starts at 0, and each other where the one before it ends.
#[derive(Drop)]
pub struct Ranges {
    /// The end of each range, in the order of storage.
    ends: Table<u32>,
    /// Whether the ranges are numbered from the last one in storage.
    reversed: bool,
}

// Clauses see the ends in the order of storage, which do not fall, how they are numbered, the room, which table it is, and
// where in memory the ends stand.
impl Model for Ranges {
    ghost use Rattle.ranges.specs.Order.{Rising};
    ghost use Rattle.ranges.specs.Spans.{Placed};

    ghost Value = { Placed };

    ghost view = { λ r. record { spans = record { ends = r.ends.entries; reversed = r.reversed; most = r.ends.limit; id = r.ends.id }; block = r.ends.block } };

    ghost invariant = { λ r. Rising r.ends.entries };
}

impl Ranges {
    /// No ranges, with room for `length`, or for the most that `id` allows where that is fewer.
    pub fn new(heap: Global, id: TableId, length: usize) -> Result<Ranges, AllocError>
        ensures { IfOk result (λ s. s.spans ≡ no_spans id (capacity_of id length)) }
    {
        let ends = Table::new(heap, id, length)?;
        Ok(Ranges {
            ends,
            reversed: false,
        })
    }

    /// No ranges, in a list that is used alone, with room for `length`, or for the most that such a list can have.
    pub fn alone(heap: Global, length: usize) -> Result<Ranges, AllocError>
        ensures { IfOk result (λ s. s.spans ≡ no_spans Alone (capacity_of Alone length)) }
    {
        Ranges::new(heap, TableId::Ranges, length)
    }

    /// The number of ranges.
    pub fn len(&self) -> usize
        ensures { result ≡ count self.now.spans }
    {
        self.ends.len()
    }

    /// The end of the last range in storage, or 0 where there is none.
    pub fn last_end(&self) -> u32
        ensures { result ≡ last_end self.now.spans }
    {
        self.endpoint(self.len())
    }

    // Endpoint `k`: 0, or the end of the range before it in storage.
    fn endpoint(&self, k: usize) -> u32
        requires { k ≤ count self.now.spans }
        ensures { result ≡ slice_index (endpoints self.now.spans.ends) k }
    {
        if k == 0 {
            0
        } else {
            self.ends.as_slice()[k - 1]
        }
    }

    /// Refuses what `push_end` would refuse, with the same fault.
    pub fn check_end(&self, end: u32) -> Result<(), Fault>
        ensures { Refuses (end_fault self.now.spans end) result }
    {
        if self.reversed || end < self.last_end() {
            return Err(Fault::Mismatch(end as usize));
        }
        self.ends.check_room()
    }

    /// Adds a range from the last end to `end`.
    pub fn push_end(&mut self, end: u32) -> Result<(), Fault>
        ensures cases { Outcome (end_fault self.old.spans end) result (λ _. self.new.spans ≡ with_end self.old.spans end) }
        ensures unchanged { OnErr result (self.new ≡ self.old) }
        ensures added { OnOk result ((count self.new.spans ≡ count self.old.spans + 1) × (range_of self.new.spans (count self.old.spans) ≡ (last_end self.old.spans, end))) }
        ensures kept { OnOk result ((k : ℕ) → k < count self.old.spans → range_of self.new.spans k ≡ range_of self.old.spans k) }
    {
        self.check_end(end)?;
        self.ends.append(end);
        Ok(())
    }

    /// The start and the end of range `index`.
    pub fn get(&self, index: usize) -> Result<(u32, u32), Fault>
        ensures cases { MatchResult result (λ p. (index < count self.now.spans) × (p ≡ range_of self.now.spans index)) (λ f. (count self.now.spans ≤ index) × (f ≡ OutOfRange index)) }
        ensures within { IfOk result (λ p. (p.0 ≤ p.1) × (p.1 ≤ last_end self.now.spans)) }
    {
        let n = self.len();
        if index >= n {
            return Err(Fault::OutOfRange(index));
        }
        let k = if self.reversed { n - 1 - index } else { index };
        Ok((self.endpoint(k), self.endpoint(k + 1)))
    }

    /// Removes all ranges, and numbers those to come from the first.
    pub fn clear(&mut self)
        ensures { self.new.spans ≡ no_spans self.old.spans.id self.old.spans.most }
    {
        self.ends.clear();
        self.reversed = false;
    }

    /// Numbers the ranges from the other end.
    pub fn reverse_index(&mut self)
        ensures stored { self.new.spans ≡ index_reversed self.old.spans }
        ensures len { count self.new.spans ≡ count self.old.spans }
        ensures ranges { (k : ℕ) → k < count self.old.spans → range_of self.new.spans k ≡ range_of self.old.spans (count self.old.spans - 1 - k) }
    {
        self.reversed = !self.reversed;
    }

    /// Follows the reversal of the list of `target_len` entries that the ranges span.
    pub fn reverse_target(&mut self, target_len: u32) -> Result<(), Fault>
        ensures cases { Outcome (target_fault self.old.spans target_len) result (λ _. self.new.spans ≡ target_reversed self.old.spans target_len) }
        ensures unchanged { OnErr result (self.new ≡ self.old) }
        ensures len { count self.new.spans ≡ count self.old.spans }
        ensures ranges { OnOk result ((k : ℕ) → k < count self.old.spans → range_of self.new.spans k ≡ (target_len - (range_of self.old.spans k).1, target_len - (range_of self.old.spans k).0)) }
    {
        if target_len != self.last_end() {
            return Err(Fault::Mismatch(target_len as usize));
        }
        reverse_ends(self.ends.as_mut_slice(), target_len);
        self.reverse_index();
        Ok(())
    }
}

// Replaces each endpoint `e`, the leading 0 too, by `target_len - e`, and reverses the endpoints.
fn reverse_ends(ends: &mut [u32], target_len: u32)
    requires { (k : ℕ) → slice_index ends.old k ≤ target_len }
    ensures { ends.new ≡ reversed_ends target_len ends.old }
{
    let mut start = 0;
    for e in ends.iter_mut() {
        start = mem::replace(e, target_len - start);
    }
    ends.reverse();
}
