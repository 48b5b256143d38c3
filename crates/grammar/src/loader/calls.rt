// One command more: it moves the load on, or stops it.
ghost use Rattle.std.specs.Prelude.{◌≡◌, ◌<◌, ◌≤◌, true, length, map, OnOk, if◌then◌else◌, nat_lt};
ghost use Rattle.grammar.specs.Limits.{most_categories, most_dimension, most_symbols};
ghost use Rattle.grammar.specs.declared.stops.PackStop.TheVariants.{Misplaced, TooMany};
ghost use Rattle.grammar.specs.Checks.{fills_all, is_open};
ghost use Rattle.grammar.specs.Commands.{Category, Constituent, Part, Production as Opens, Start, Token, is_end};
ghost use Rattle.grammar.specs.Drafts.{Between, Body, Categories, Fresh, Head, blank, model_of, with_symbol};
ghost use Rattle.grammar.specs.Grammars.{dimension, no_production};
ghost use Rattle.grammar.specs.Entries.{entries};
ghost use Rattle.grammar.specs.Lists.{last_or};
ghost use Rattle.grammar.specs.Loaders.{Closed, Stepped, draft_of};
ghost use Rattle.grammar.specs.Held.{production_model};
ghost use Rattle.grammar.specs.Model.{model};
ghost use Rattle.grammar.specs.Tested.{formed};

use crate::command::{Command, Operands};
use crate::filling::{dimension_of, each_has_some, names_each};
use crate::held::Grammar;
use crate::limits::{MOST_DIMENSION, MOST_SYMBOLS};
use crate::loader::Loader;
use crate::production::{Constituent, Production};
use crate::stage::Stage;
use crate::stops::PackStop;
use crate::symbol::Symbol;
use arrayvec::ArrayVec;

impl Loader {
    pub(crate) fn new() -> Loader
        ensures stage { result.stage ≡ Fresh }
        ensures draft { draft_of result ≡ blank }
    {
        Loader {
            stage: Stage::Fresh,
            kind: 0,
            dimensions: ArrayVec::new(),
            start: 0,
            productions: ArrayVec::new(),
            offset: 0,
        }
    }

    // The production that is open.
    fn opened(&self) -> &Production
        requires { is_open self.now.stage ≡ true }
        ensures { production_model result.now ≡ last_or no_production (map production_model self.now.productions.items) }
    {
        &self.productions[self.productions.len() - 1]
    }

    // The dimension of the open production's category.
    fn open_dimension(&self) -> u8
        requires { is_open self.now.stage ≡ true }
        ensures value { result ≡ dimension (draft_of self.now).dimensions (draft_of self.now).opened.category }
        ensures most { result ≤ most_dimension }
    {
        dimension_of(self.dimensions.as_slice(), self.opened().category())
    }

    fn add_category(&mut self, at: usize, dimension: u8) -> Result<(), PackStop>
        requires { self.old.stage ≡ Categories }
        ensures { Stepped at self.old (Category dimension) result self.new }
    {
        if self.dimensions.is_full() {
            return Err(PackStop::TooMany { at });
        }
        if dimension == 0 || MOST_DIMENSION < usize::from(dimension) {
            return Err(PackStop::BadOperand { at });
        }
        self.dimensions.push(dimension);
        Ok(())
    }

    // The stop of a CATEGORY at another stage: the count is looked at first.
    fn late_category(&self, at: usize) -> PackStop
        ensures { result ≡ (if nat_lt (length (draft_of self.now).dimensions) most_categories then Misplaced at else TooMany at) }
    {
        if self.dimensions.is_full() {
            PackStop::TooMany { at }
        } else {
            PackStop::Misplaced { at }
        }
    }

    fn set_start(&mut self, at: usize, category: u8) -> Result<(), PackStop>
        requires { self.old.stage ≡ Categories }
        ensures { Stepped at self.old (Start category) result self.new }
    {
        if self.dimensions.is_empty() {
            return Err(PackStop::Misplaced { at });
        }
        if dimension_of(self.dimensions.as_slice(), category) != 1 {
            return Err(PackStop::BadStart { at });
        }
        self.start = category;
        self.stage = Stage::Between;
        Ok(())
    }

    // Whether the production has as many constituents as its category's dimension, each with a symbol.
    fn fills(&self, production: &Production) -> bool
        ensures { result ≡ fills_all (draft_of self.now).dimensions (production_model production.now) }
    {
        let constituents = production.constituents();
        let dimension = dimension_of(self.dimensions.as_slice(), production.category());
        usize::from(dimension) <= constituents.len() && each_has_some(constituents)
    }

    // Closes the production whose last constituent is open.
    fn close(&mut self) -> Result<(), PackStop>
        requires { self.old.stage ≡ Body }
        ensures { Closed self.old result self.new }
    {
        let opened = self.opened();
        if !self.fills(opened) {
            return Err(PackStop::Unfilled {
                production: self.offset,
            });
        }
        if !names_each(
            self.dimensions.as_slice(),
            opened.arguments(),
            opened.constituents(),
        ) {
            return Err(PackStop::Unnamed {
                production: self.offset,
            });
        }
        self.stage = Stage::Between;
        Ok(())
    }

    fn open(&mut self, at: usize, operands: Operands) -> Result<(), PackStop>
        requires { self.old.stage ≡ Between }
        ensures { Stepped at self.old (Opens operands) result self.new }
    {
        if self.productions.is_full() {
            return Err(PackStop::TooMany { at });
        }
        if !operands.fit(self.dimensions.len()) {
            return Err(PackStop::BadOperand { at });
        }
        self.productions.push(Production::new(operands));
        self.offset = at;
        self.stage = Stage::Head;
        Ok(())
    }

    fn open_first(&mut self, at: usize) -> Result<(), PackStop>
        requires { self.old.stage ≡ Head }
        ensures { Stepped at self.old Constituent result self.new }
    {
        if self.open_dimension() == 0 {
            return Err(PackStop::TooMany { at });
        }
        let last = self.productions.len() - 1;
        self.productions[last].open_constituent();
        self.stage = Stage::Body;
        Ok(())
    }

    // The symbols of the constituent that is open.
    fn current(&self) -> &Constituent
        requires { self.now.stage ≡ Body }
        ensures value { entries result.now ≡ (draft_of self.now).opened.current }
    {
        let constituents = self.opened().constituents();
        &constituents[constituents.len() - 1]
    }

    fn open_next(&mut self, at: usize) -> Result<(), PackStop>
        requires { self.old.stage ≡ Body }
        ensures { Stepped at self.old Constituent result self.new }
    {
        if self.opened().constituents().len() >= usize::from(self.open_dimension()) {
            return Err(PackStop::TooMany { at });
        }
        if self.current().items().is_empty() {
            return Err(PackStop::Misplaced { at });
        }
        let last = self.productions.len() - 1;
        self.productions[last].open_constituent();
        Ok(())
    }

    // Adds a symbol to the constituent that is open.
    fn add_symbol(&mut self, symbol: Symbol)
        requires body { self.old.stage ≡ Body }
        requires room { length (draft_of self.old).opened.current < most_symbols }
        ensures stage { self.new.stage ≡ Body }
        ensures draft { draft_of self.new ≡ with_symbol (draft_of self.old) symbol }
    {
        let last = self.productions.len() - 1;
        self.productions[last].add_symbol(symbol);
    }

    fn add_token(&mut self, at: usize, token: u16) -> Result<(), PackStop>
        requires { self.old.stage ≡ Body }
        ensures { Stepped at self.old (Token token) result self.new }
    {
        if self.current().len() >= MOST_SYMBOLS {
            return Err(PackStop::TooMany { at });
        }
        self.add_symbol(Symbol::Token(token));
        Ok(())
    }

    fn add_part(&mut self, at: usize, argument: u8, constituent: u8) -> Result<(), PackStop>
        requires { self.old.stage ≡ Body }
        ensures { Stepped at self.old (Part argument constituent) result self.new }
    {
        if self.current().len() >= MOST_SYMBOLS {
            return Err(PackStop::TooMany { at });
        }
        let dimensions = self.dimensions.as_slice();
        if !self.opened().part_fits(dimensions, argument, constituent) {
            return Err(PackStop::BadOperand { at });
        }
        self.add_symbol(Symbol::Part {
            argument,
            constituent,
        });
        Ok(())
    }

    // Takes the command that stands at the offset `at`.
    pub(crate) fn take(&mut self, at: usize, command: Command) -> Result<(), PackStop>
        ensures stepped { Stepped at self.old command result self.new }
        ensures closed { OnOk result (is_end command ≡ true → self.new.stage ≡ Between) }
    {
        match (self.stage, command) {
            (Stage::Fresh, Command::Kind { kind }) => {
                self.kind = kind;
                self.stage = Stage::Categories;
                Ok(())
            }
            (Stage::Categories, Command::Category { dimension }) => self.add_category(
                at, dimension,
            ),
            (_, Command::Category { .. }) => Err(self.late_category(at)),
            (Stage::Categories, Command::Start { category }) => self.set_start(at, category),
            (Stage::Between, Command::Production(operands)) => self.open(at, operands),
            (Stage::Body, Command::Production(operands)) => {
                self.close()?;
                self.open(at, operands)
            }
            (Stage::Head, Command::Production(_)) | (Stage::Head, Command::End) => {
                Err(PackStop::Unfilled {
                    production: self.offset,
                })
            }
            (Stage::Head, Command::Constituent) => self.open_first(at),
            (Stage::Body, Command::Constituent) => self.open_next(at),
            (Stage::Body, Command::Token { token }) => self.add_token(at, token),
            (
                Stage::Body,
                Command::Part {
                    argument,
                    constituent,
                },
            ) => self.add_part(at, argument, constituent),
            (Stage::Between, Command::End) => Ok(()),
            (Stage::Body, Command::End) => self.close(),
            _ => Err(PackStop::Misplaced { at }),
        }
    }

    // The grammar that was read.
    pub(crate) fn finish(self) -> Grammar
        requires closed { self.stage ≡ Between }
        requires formed { formed (model_of (draft_of self)) ≡ true }
        ensures { model result ≡ model_of (draft_of self) }
    {
        Grammar {
            kind: self.kind,
            dimensions: self.dimensions,
            start: self.start,
            productions: self.productions,
        }
    }
}
