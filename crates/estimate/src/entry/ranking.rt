// Entries in the category agenda: one of each category at most, and the blank one.
ghost use Rattle.std.specs.Prelude.{◌≡◌};
ghost use Rattle.std.specs.Ordering.{nat_cmp};
ghost use Rattle.agenda.specs.Levels.{nat_level};
ghost use Rattle.estimate.specs.Entries.{place, blank_entry};
ghost use Rattle.estimate.specs.Cheaper.{entries_alike};

use super::Entry;
use agenda::Slotted;
use weight::weight::Weight;

impl<W: Weight> Slotted for Entry<W> {
    ghost index = { place };

    ghost alike = { entries_alike W.Weight.algebra W.Weight.exact W.Ord.cmp W.Weight.compared W.Weight.same nat_cmp nat_level };

    fn slot_index(&self) -> usize {
        self.category
    }
}

impl<W: Weight> Entry<W> {
    // What a blank cell of the agenda holds.
    pub fn blank() -> Entry<W>
        ensures { result ≡ blank_entry W.Weight.nothing }
    {
        Entry {
            cost: W::none(),
            category: 0,
        }
    }
}
