//! The text at `do`, which says what an object asks for.
ghost use Rattle.std.specs.Prelude.{◌≡◌, codes, Some, IfSome, IfNone};
ghost use Rattle.serde_json.specs.View.{view};
ghost use Rattle.order_text.specs.declared.word.Word.{Word};
ghost use Rattle.order_text.specs.Private.{text_at, encoded};

use crate::fields::text_at;
use serde_json::Value;

/// A text that may be at `do`.
#[derive(Clone, Copy)]
pub(crate) enum Word {
    Asset,
    Account,
    Deposit,
    Withdraw,
    Place,
    Cancel,
    Batch,
    Credit,
    Ladder,
}

// Returns the word that a text is, if it is one.
fn word_of(text: &str) -> Option<Word>
    ensures some { IfSome result (λ word. text.now ≡ encoded word) }
    ensures none { IfNone result ((word : Word) → ¬ (text.now ≡ encoded word)) }
{
    match text {
        "asset" => Some(Word::Asset),
        "account" => Some(Word::Account),
        "deposit" => Some(Word::Deposit),
        "withdraw" => Some(Word::Withdraw),
        "place" => Some(Word::Place),
        "cancel" => Some(Word::Cancel),
        "batch" => Some(Word::Batch),
        "credit" => Some(Word::Credit),
        "ladder" => Some(Word::Ladder),
        _ => None,
    }
}

/// Returns the word at `do`, if there is one.
pub(crate) fn word_at(value: &Value) -> Option<Word>
    ensures some { IfSome result (λ word. text_at (codes "do") (view value.now) ≡ Some (encoded word)) }
    ensures none { IfNone result ((word : Word) → ¬ (text_at (codes "do") (view value.now) ≡ Some (encoded word))) }
{
    word_of(text_at(value, "do")?)
}
