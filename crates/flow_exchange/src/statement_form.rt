//! The arguments `statement NUMBER`.
ghost use Rattle.std.specs.Prelude.{◌≡◌, ◌∷◌, [], ℕ, IfSome, IfNone, map, string_bytes};
ghost use Rattle.flow_exchange.specs.Stating.{AskStatement};
ghost use Rattle.flow_exchange.specs.Private.{AreTwo};

use crate::sample_form::number_of;

// Returns the second of two arguments, if the first is this one.
fn following<'a>(words: &'a [String], first: &str) -> Option<&'a str>
    ensures two { IfSome result (λ second. map string_bytes words.now ≡ first.now ∷ second.now ∷ []) }
    ensures none { IfNone result (¬ AreTwo (map string_bytes words.now) first.now) }
{
    if words.len() != 2 {
        return None;
    }
    if words[0].as_str() != first {
        return None;
    }
    Some(words[1].as_str())
}

/// Returns the number of a statement's account, if the arguments ask for one.
pub(crate) fn statement_of(words: &[String]) -> Option<u64>
    ensures asked { IfSome result (λ number. AskStatement (map string_bytes words.now) number) }
    ensures none { IfNone result ((number : ℕ) → ¬ AskStatement (map string_bytes words.now) number) }
{
    let number = following(words, "statement")?;
    let number = number_of(number)?;
    Some(number)
}
