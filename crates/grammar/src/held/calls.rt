// What a loaded grammar holds.
ghost use Rattle.std.specs.Prelude.{◌≡◌, map};
ghost use Rattle.grammar.specs.Held.{production_model};
ghost use Rattle.grammar.specs.Model.{model};

use crate::held::Grammar;
use crate::production::Production;

impl Grammar {
    // The number of the weight kind: any byte, as which kinds exist is not the grammar's business, so no enum.
    pub fn kind(&self) -> u8
        ensures { result ≡ (model self.now).kind }
    {
        self.kind
    }

    // The dimension of each category, in the order of their numbers.
    pub fn dimensions(&self) -> &[u8]
        ensures { result.now ≡ (model self.now).dimensions }
    {
        self.dimensions.as_slice()
    }

    pub fn start(&self) -> u8
        ensures { result ≡ (model self.now).start }
    {
        self.start
    }

    pub fn productions(&self) -> &[Production]
        ensures { map production_model result.now ≡ (model self.now).productions }
    {
        self.productions.as_slice()
    }
}
