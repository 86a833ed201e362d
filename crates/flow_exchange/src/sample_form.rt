//! The arguments `sample NUMBER ORDERS`.
ghost use Rattle.std.specs.Prelude.{◌≡◌, ◌≢◌, ◌<◌, ◌≤◌, ◌^◌, ◌↔◌, ◌∷◌, [], ℕ, IsTrue, IfSome, IfNone, decimal, map, string_bytes};
ghost use Rattle.sample_summary.specs.Summary.{most_sampled};
ghost use Rattle.flow_exchange.specs.Sampling.{AskSample};
ghost use Rattle.flow_exchange.specs.Private.{AreThree};

use itoa::Buffer;

// The most orders of a sample.
const MOST_ORDERS: u64 = sample_summary::MOST_ORDERS as u64;

// Returns whether the argument is the number in plain decimal digits.
fn is_decimal(word: &str, number: u64) -> bool
    ensures { IsTrue result ↔ (word.now ≡ decimal number) }
{
    let mut buffer = Buffer::new();
    word == buffer.format(number)
}

// Returns the number that an argument is in plain decimal digits: without a sign, and without a leading zero.
pub(crate) fn number_of(word: &str) -> Option<u64>
    ensures number { IfSome result (λ number. (word.now ≡ decimal number) × (number < 2 ^ 64)) }
    ensures none { IfNone result ((number : ℕ) → number < 2 ^ 64 → word.now ≢ decimal number) }
{
    match word.parse::<u64>() {
        Ok(number) if is_decimal(word, number) => Some(number),
        Ok(_) => None,
        Err(_) => None,
    }
}

// Returns how many orders an argument asks for, if they are 1 to 16,384.
fn orders_of(word: &str) -> Option<u32>
    ensures orders { IfSome result (λ orders. (word.now ≡ decimal orders) × (1 ≤ orders) × (orders ≤ most_sampled)) }
    ensures none { IfNone result ((orders : ℕ) → 1 ≤ orders → orders ≤ most_sampled → word.now ≢ decimal orders) }
{
    match number_of(word) {
        Some(orders) if 1 <= orders && orders <= MOST_ORDERS => Some(orders as u32),
        Some(_) => None,
        None => None,
    }
}

// Returns the second and the third of three arguments, if the first is this one.
fn following<'a>(words: &'a [String], first: &str) -> Option<(&'a str, &'a str)>
    ensures three { IfSome result (λ rest. map string_bytes words.now ≡ first.now ∷ rest.0.now ∷ rest.1.now ∷ []) }
    ensures none { IfNone result (¬ AreThree (map string_bytes words.now) first.now) }
{
    if words.len() != 3 {
        return None;
    }
    if words[0].as_str() != first {
        return None;
    }
    Some((words[1].as_str(), words[2].as_str()))
}

/// Returns the number and the orders of a sample, if the arguments ask for one.
pub(crate) fn sample_of(words: &[String]) -> Option<(u64, u32)>
    ensures asked { IfSome result (λ sample. AskSample (map string_bytes words.now) sample.0 sample.1) }
    ensures none { IfNone result ((number orders : ℕ) → ¬ AskSample (map string_bytes words.now) number orders) }
{
    let (number, orders) = following(words, "sample")?;
    let number = number_of(number)?;
    let orders = orders_of(orders)?;
    Some((number, orders))
}
