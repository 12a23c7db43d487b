//! An ordered set of numbers that are still to be processed.

ghost use Rattle.std.specs.Prelude.{◌≡◌, ◌⊎◌, ◌↔◌, ◌+◌, ◌^◌, ◌<◌, ◌++◌, ◌∷◌, [], ℕ, length, if◌then◌else◌, nat_eq};
ghost use Rattle.std.specs.Prelude.{IfOk, IfSome, MatchOption, OnOk, OnErr, Some, false, slice_get, Contains};
ghost use Rattle.std.specs.List.{IsDistinct};
ghost use Rattle.name_walk.specs.Faults.{is_on_path};
ghost use Rattle.live_table.specs.Agendas.{AreSameAgendaPlaces};

use std::alloc::{AllocError, Global};
use std::marker::Model;

/// Distinct numbers in insertion order. The memory is reused from one query to the next.
#[derive(Drop)]
pub(crate) struct Worklist {
    numbers: Vec<usize>,
    // for each number in the agenda, its place plus 1; 0 for any other number; no entry beyond the last
    places: Vec<u32>,
}

impl Model for Worklist {
    ghost use Rattle.std.specs.Prelude.{List, ℕ};
    ghost use Rattle.live_table.specs.Agendas.{AreAgendaPlaces};

    ghost Value = { List ℕ };

    ghost view = { λ a. a.numbers.items };

    ghost invariant = { λ a. AreAgendaPlaces a.places.items a.numbers.items };
}

impl Worklist {
    /// Returns an empty agenda.
    pub(crate) fn new(alloc: Global) -> Worklist
        ensures { result ≡ [] }
    {
        Worklist {
            numbers: Vec::new(alloc),
            places: Vec::new(alloc),
        }
    }

    /// Returns the number at a place, counted from 0, or `None` beyond the last.
    pub(crate) fn get(&self, place: usize) -> Option<usize>
        ensures number { result ≡ slice_get self.now place }
        ensures few { IfSome result (λ _. place + 1 < 2 ^ 64) }
    {
        self.numbers.get(place).copied()
    }

    /// Whether the agenda contains a number.
    pub(crate) fn has(&self, n: usize) -> bool
        ensures { result ≡ is_on_path self.now n }
    {
        self.place_of(n).is_some()
    }

    /// Returns the place of a number, counted from 0, or `None` if the agenda does not contain it.
    pub(crate) fn place_of(&self, n: usize) -> Option<usize>
        ensures { MatchOption result (is_on_path self.now n ≡ false) (λ place. slice_get self.now place ≡ Some n) }
    {
        let kept = self.places.get(n).copied().unwrap_or(0);
        (kept as usize).checked_sub(1)
    }

    /// Appends a number, which is below `end`, unless it is there already. On failure nothing changes.
    pub(crate) fn put(&mut self, n: usize, end: usize) -> Result<(), AllocError>
        requires { n < end }
        ensures ok { OnOk result (self.new ≡ (if is_on_path self.old n then self.old else self.old ++ n ∷ [])) }
        ensures err { OnErr result (self.new ≡ self.old) }
    {
        if self.has(n) {
            return Ok(());
        }
        cover(&mut self.places, n, end)?;
        let kept = kept_place(self.numbers.len())?;
        self.numbers.push(n)?;
        self.places[n] = kept;
        Ok(())
    }

    /// Appends the numbers, which are below `end`, that are not there already. On failure some of them may have been
    /// appended.
    pub(crate) fn put_all(&mut self, numbers: &[usize], end: usize) -> Result<(), AllocError>
        requires { (m : ℕ) → Contains numbers.now m → m < end }
        ensures { OnOk result ((m : ℕ) → Contains self.new m ↔ (Contains self.old m ⊎ Contains numbers.now m)) }
    {
        for n in numbers {
            self.put(*n, end)?;
        }
        Ok(())
    }

    /// Borrows the numbers, in order.
    pub(crate) fn as_slice(&self) -> &[usize]
        ensures { result.now ≡ self.now }
    {
        &self.numbers
    }

    /// Returns a copy of the numbers. The only error is lack of memory.
    pub(crate) fn to_vec(&self, alloc: Global) -> Result<Vec<usize>, AllocError>
        ensures copy { IfOk result (λ numbers. numbers.items ≡ self.now) }
        ensures once { IsDistinct nat_eq self.now }
    {
        Vec::from_slice(alloc, &self.numbers)
    }

    /// Removes all numbers. The cost is proportional to their count.
    pub(crate) fn clear(&mut self)
        ensures { self.new ≡ [] }
    {
        while let Some(n) = self.numbers.pop() {
            self.places[n] = 0;
        }
    }
}

// Makes room for the place of a number, which is below `end`. No place changes.
fn cover(places: &mut Vec<u32>, n: usize, end: usize) -> Result<(), AllocError>
    requires { n < end }
    ensures same { AreSameAgendaPlaces places.old.items places.new.items }
    ensures ok { OnOk result (n < length places.new.items) }
{
    if n < places.len() {
        return Ok(());
    }
    places.resize(end, 0)
}

// The stored form of a place. No memory holds so many numbers that a place would not fit.
fn kept_place(place: usize) -> Result<u32, AllocError>
    ensures { IfOk result (λ kept. kept ≡ place + 1) }
{
    match u32::try_from(place.saturating_add(1)) {
        Ok(kept) => Ok(kept),
        Err(_) => Err(AllocError),
    }
}
