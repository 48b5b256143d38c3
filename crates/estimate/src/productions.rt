// The productions of a grammar by number.
ghost use Rattle.std.specs.Prelude.{◌≡◌, ◌<◌, length};
ghost use Rattle.grammar.specs.Grammars.{production};
ghost use Rattle.grammar.specs.Held.{production_model};
ghost use Rattle.grammar.specs.Model.{model};

use grammar::Grammar;
use grammar::production::Production;

// How many productions there are.
pub fn production_count(grammar: &Grammar) -> usize
    ensures { result ≡ length (model grammar.now).productions }
{
    grammar.productions().len()
}

// Production p.
pub fn production_at(grammar: &Grammar, p: usize) -> &Production
    requires { p < length (model grammar.now).productions }
    ensures { production_model result.now ≡ production (model grammar.now) p }
{
    &grammar.productions()[p]
}
