//! Laws of all exact subcommands, whatever code there is. Each law is the contract of a function that does nothing.
ghost use Rattle.word_driver.specs.Laws.{IsExact, IsKept, HasNext, OneEnd, SomeEnd, BegunIsAPrefix};

use crate::serves::ServesWord;

/// The bytes of a source have at most one end and one text.
pub fn one_end<W: ServesWord>()
    ensures { IsExact W.word → (word : W) → OneEnd W.word (W.start word) }
{}

/// What the output holds after a fault, up to its last complete piece, or after memory ran out, is a prefix of the text that the
/// bytes result in.
pub fn begun_is_a_prefix<W: ServesWord>()
    ensures { IsExact W.word → (word : W) → BegunIsAPrefix W.word (W.start word) }
{}

/// No bytes of a source are without an end and a text, if the subcommand has a next step in each state that it reaches.
pub fn some_end<W: ServesWord>()
    ensures { IsExact W.word → (word : W) → IsKept W.word (W.start word) → HasNext W.word (W.start word)
        → SomeEnd W.word (W.start word) }
{}
