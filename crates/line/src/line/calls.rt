// What may be done with a line, and with a phrase.
ghost use Rattle.std.specs.Prelude.{◌≡◌, []};
ghost use Rattle.line.specs.History.{History, Open, Sealed, Start, Key, Rub, Wipe, Seal, Reopen, Read, keyed, LineOf, PhraseOf};
ghost use Rattle.line.specs.Laws.{HistoryLaws};
ghost use Rattle.line.specs.Room.{room};
ghost use Rattle.line.specs.Stops.{told};
ghost use Rattle.line.specs.Tokens.{tokens_of, phrase_of, added, rubbed, key_told, rub_told};

use crate::line::{LINE_ROOM, Line, Phrase};
use crate::stop::LineStop;
use arrayvec::ArrayVec;

impl Line {
    // How many tokens a line holds at most, whatever was done with it.
    pub fn capacity() -> usize
        ensures value { result ≡ room }
        ensures law { HistoryLaws result }
    {
        LINE_ROOM
    }

    // A line begins with no tokens.
    pub fn new() -> Line
        ensures tokens { tokens_of result ≡ [] }
        ensures law { LineOf Start result }
    {
        Line {
            tokens: ArrayVec::new(),
        }
    }

    // Adds one token at the end.
    pub fn key(&mut self, token: u16) -> Result<(), LineStop>
        ensures stopped { told result ≡ key_told (tokens_of self.old) }
        ensures tokens { tokens_of self.new ≡ added (tokens_of self.old) token }
        ensures law { (h : History Open) → LineOf h self.old → LineOf (Key h token) self.new }
    {
        self.tokens.try_push(token).map_err(|_| LineStop::Full)
    }

    // Takes the last token off.
    pub fn rub(&mut self) -> Result<(), LineStop>
        ensures stopped { told result ≡ rub_told (tokens_of self.old) }
        ensures tokens { tokens_of self.new ≡ rubbed (tokens_of self.old) }
        ensures law { (h : History Open) → LineOf h self.old → LineOf (Rub h) self.new }
    {
        self.tokens.pop().ok_or(LineStop::Empty)?;
        Ok(())
    }

    // Takes all tokens off.
    pub fn wipe(&mut self)
        ensures tokens { tokens_of self.new ≡ [] }
        ensures law { (h : History Open) → LineOf h self.old → LineOf (Wipe h) self.new }
    {
        self.tokens.clear();
    }

    // Ends the keying: the line is given up for the phrase of its tokens.
    pub fn seal(self) -> Phrase
        ensures tokens { phrase_of result ≡ tokens_of self }
        ensures law { (h : History Open) → LineOf h self → PhraseOf (Seal h) result }
    {
        Phrase { line: self }
    }

    // The tokens keyed so far, to show them.
    pub fn tokens(&self) -> &[u16]
        ensures tokens { result.now ≡ tokens_of self.now }
        ensures law { (h : History Open) → LineOf h self.now → result.now ≡ keyed h }
    {
        self.tokens.as_slice()
    }
}

impl Phrase {
    // Goes back to keying: the phrase is given up for the line of its tokens.
    pub fn reopen(self) -> Line
        ensures tokens { tokens_of result ≡ phrase_of self }
        ensures law { (h : History Sealed) → PhraseOf h self → LineOf (Reopen h) result }
    {
        let Phrase { line } = self;
        line
    }

    // The tokens of the phrase. Whoever looks at them through `&self` leaves the phrase as it is,
    // so a phrase that has been read is the phrase of the history with that read in it.
    pub fn tokens(&self) -> &[u16]
        ensures tokens { result.now ≡ phrase_of self.now }
        ensures law { (h : History Sealed) → PhraseOf h self.now → (result.now ≡ keyed h) × PhraseOf (Read h) self.now }
    {
        self.line.tokens()
    }
}
