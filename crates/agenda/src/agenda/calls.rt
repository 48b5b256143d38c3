// The calls on an agenda: push, pop, look up by index, improve, offer.
ghost use Rattle.std.specs.Prelude.{◌≡◌, ℕ, ◌+◌, ◌<◌, [], drop, MatchBool, MatchOption, slice_index_or};
ghost use Rattle.agenda.specs.Orders.{before};
ghost use Rattle.agenda.specs.Places.{Absent, Present};
ghost use Rattle.agenda.specs.Agendas.{room, count, entries, cells_of, Bounded, Holding, Pushed, Popped, Improves, Offered};

use super::Agenda;
use crate::cells::Cell;
use crate::entry::Slotted;
use crate::table::Table;

// Each call that changes an agenda says that it is as long, the same slice, and untouched beyond its indices: that relates two states, so the type can't say it.
impl<'a, E: Slotted> Agenda<'a, E> {
    // An empty agenda, whatever the cells hold.
    pub fn new(cells: &'a mut [Cell<E>]) -> Agenda<'a, E>
        ensures empty { entries result ≡ [] }
        ensures cells { cells_of result ≡ cells.old }
        ensures named { result.cells.ghost_name ≡ cells.entry.ghost_name }
    {
        Agenda { cells, len: 0 }
    }

    // The entry at i. A table holds a `&mut`, so none can be made of a `&self`.
    fn entry(&self, i: usize) -> E
        requires { i < count self.now }
        ensures { (d : E) → result ≡ slice_index_or (entries self.now) i d }
    {
        self.cells[i].entry
    }

    // Where the entry with the index k lies.
    fn find(&self, k: usize) -> Option<usize>
        requires { k < room self.now }
        ensures { MatchOption result (Absent E.index (entries self.now) k) (λ p. Present E.index (entries self.now) k p) }
    {
        let p = self.cells[k].slot;
        if p < self.len && self.entry(p).slot_index() == k {
            Some(p)
        } else {
            None
        }
    }

    // The entry of the index k.
    pub fn get(&self, k: usize) -> Option<E>
        requires { k < room self.now }
        ensures { MatchOption result (Absent E.index (entries self.now) k) (Holding E.index (entries self.now) k) }
    {
        let p = self.find(k)?;
        Some(self.entry(p))
    }

    // Whether an entry has the index k.
    pub fn has(&self, k: usize) -> bool
        requires { k < room self.now }
        ensures { MatchBool result ((e : E) × Holding E.index (entries self.now) k e) (Absent E.index (entries self.now) k) }
    {
        self.get(k).is_some()
    }

    // Adds e, whose index no entry has.
    pub fn push(&mut self, e: E)
        requires within { E.index e < room self.old }
        requires absent { Absent E.index (entries self.old) (E.index e) }
        ensures room { room self.new ≡ room self.old }
        ensures named { self.new.cells.ghost_name ≡ self.old.cells.ghost_name }
        ensures pushed { Pushed e (entries self.old) (entries self.new) }
        ensures untouched { (n : ℕ) → Bounded E.index (entries self.new) n → drop n (cells_of self.new) ≡ drop n (cells_of self.old) }
    {
        let len = self.len;
        // Each call makes its table by itself: the check doesn't cover a method that hands one out over the agenda's own `&mut`.
        let cells = &mut *self.cells;
        let mut table = Table::new(cells, len);
        table.push(e);
        self.len = len + 1;
    }

    // Takes the first entry out.
    pub fn pop(&mut self) -> Option<E>
        ensures room { room self.new ≡ room self.old }
        ensures named { self.new.cells.ghost_name ≡ self.old.cells.ghost_name }
        ensures count { MatchOption result (count self.new ≡ count self.old) (λ _. count self.new + 1 ≡ count self.old) }
        ensures popped { Popped (before E.cmp) E.index result (entries self.old) (entries self.new) }
        ensures untouched { (n : ℕ) → Bounded E.index (entries self.old) n → drop n (cells_of self.new) ≡ drop n (cells_of self.old) }
    {
        let len = self.len;
        if len == 0 {
            return None;
        }
        let cells = &mut *self.cells;
        let mut table = Table::new(cells, len);
        let first = table.pop();
        self.len = len - 1;
        Some(first)
    }

    // Puts e in the place of the entry with its index, if there is one and e comes before it.
    // A bool, since it answers a question: whether e came in. Nothing fails.
    pub fn improve(&mut self, e: E) -> bool
        requires { E.index e < room self.old }
        ensures room { room self.new ≡ room self.old }
        ensures named { self.new.cells.ghost_name ≡ self.old.cells.ghost_name }
        ensures improves { Improves (before E.cmp) E.index e (entries self.old) (entries self.new) result }
        ensures untouched { (n : ℕ) → Bounded E.index (entries self.old) n → drop n (cells_of self.new) ≡ drop n (cells_of self.old) }
    {
        let Some(p) = self.find(e.slot_index()) else {
            return false;
        };
        if e < self.entry(p) {
            let len = self.len;
            let cells = &mut *self.cells;
            let mut table = Table::new(cells, len);
            table.lower(p, e);
            true
        } else {
            false
        }
    }

    // Sees to it that an entry with e's index is held that does not come after e.
    pub fn offer(&mut self, e: E)
        requires { E.index e < room self.old }
        ensures room { room self.new ≡ room self.old }
        ensures named { self.new.cells.ghost_name ≡ self.old.cells.ghost_name }
        ensures offered { Offered (before E.cmp) E.index e (entries self.old) (entries self.new) }
        ensures untouched { (n : ℕ) → Bounded E.index (entries self.new) n → drop n (cells_of self.new) ≡ drop n (cells_of self.old) }
    {
        if self.has(e.slot_index()) {
            let _ = self.improve(e);
        } else {
            self.push(e);
        }
    }
}
