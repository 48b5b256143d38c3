// What a production holds.
ghost use Rattle.std.specs.Prelude.{◌≡◌, map};
ghost use Rattle.grammar.specs.Entries.{entries};
ghost use Rattle.grammar.specs.Held.{production_model};

use crate::production::{Constituent, Production};

impl Production {
    pub fn category(&self) -> u8
        ensures { result ≡ (production_model self.now).category }
    {
        self.category
    }

    pub fn weight(&self) -> u16
        ensures { result ≡ (production_model self.now).weight }
    {
        self.weight
    }

    // The categories of the arguments, in order.
    pub fn arguments(&self) -> &[u8]
        ensures { result.now ≡ (production_model self.now).arguments }
    {
        self.arguments.items()
    }

    // The symbols of each constituent.
    pub fn constituents(&self) -> &[Constituent]
        ensures { map entries result.now ≡ (production_model self.now).constituents }
    {
        self.constituents.items()
    }
}
