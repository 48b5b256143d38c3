// A stack without yields, one command on it, and the phrase that it holds at the end.
ghost use Rattle.std.specs.Prelude.{◌≡◌, true, [], length, MatchResult};
ghost use Rattle.grammar.specs.Formed.{OneOrTwo};
ghost use Rattle.grammar.specs.Held.{production_model};
ghost use Rattle.replay.specs.Piles.{items};
ghost use Rattle.replay.specs.Replays.{categories_on, fit, put};
ghost use Rattle.replay.specs.Stacks.{Left, Made, NoneEmpty, NotLeft, Performed, Stops, stack_of};

use crate::pile::Pile;
use crate::shape::{Lengths, Shape, fits, total};
use crate::stack::putting::push_strings;
use crate::stack::{Stack, Tokens};
use crate::stops::ReplayStop;
use grammar::Production;

impl Stack {
    pub(crate) fn new() -> Stack
        ensures { stack_of result ≡ [] }
    {
        let nothing = Shape {
            category: 0,
            lengths: Lengths::One(0),
        };
        Stack {
            shapes: Pile::new(nothing),
            tokens: Pile::new(0),
        }
    }

    // That a production has one or two constituents is kept by the grammar that holds it and by no production, so it is asked here and where it is used.
    // The tokens that the stack holds after the production's command, and the lengths of the strings that are then on top.
    fn yielded(&self, production: &Production, at: usize) -> Result<(Tokens, Lengths), ReplayStop>
        requires dimension { OneOrTwo (length (production_model production.now).constituents) }
        ensures { MatchResult result (λ made. Made (production_model production.now) self.now (items made.0) made.1) (λ e. Stops (production_model production.now) at self.now e) }
    {
        let arguments = production.arguments();
        let shapes = self.shapes.items();
        if shapes.len() < arguments.len() {
            return Err(ReplayStop::TooFew { at });
        }
        if !fits(arguments, shapes) {
            return Err(ReplayStop::WrongCategory { at });
        }
        let taken = &shapes[..arguments.len()];
        let mut tokens = self.tokens;
        tokens.take_off(total(taken));
        match push_strings(
            &mut tokens,
            production.constituents(),
            taken,
            self.tokens.items(),
        ) {
            Some(lengths) => Ok((tokens, lengths)),
            None => Err(ReplayStop::TooLong { at }),
        }
    }

    // The production's arguments are taken from the top, and its yield is put back.
    pub(crate) fn perform(&mut self, production: &Production, at: usize) -> Result<(), ReplayStop>
        requires dimension { OneOrTwo (length (production_model production.now).constituents) }
        requires filled { fit (production_model production.now).arguments (categories_on (stack_of self.old)) ≡ true → NoneEmpty (put (production_model production.now) (stack_of self.old)) }
        ensures { Performed (production_model production.now) at self.old result self.new }
    {
        let (tokens, lengths) = self.yielded(production, at)?;
        self.shapes.take_off(production.arguments().len());
        self.shapes.push(Shape {
            category: production.category(),
            lengths,
        });
        self.tokens = tokens;
        Ok(())
    }

    // The phrase: the string of the only yield, which stands on top.
    pub(crate) fn phrase(&self, start: u8) -> Result<&[u16], ReplayStop>
        ensures { MatchResult result (λ phrase. Left start self.now phrase.now) (λ e. NotLeft start self.now e) }
    {
        let shapes = self.shapes.items();
        let [only] = shapes else {
            return Err(ReplayStop::NotOne {
                yields: shapes.len(),
            });
        };
        if only.category != start {
            return Err(ReplayStop::NotStart {
                category: only.category,
            });
        }
        Ok(&self.tokens.items()[..only.lengths.first()])
    }
}
