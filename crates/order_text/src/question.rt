//! A question about a market.
ghost use Rattle.std.specs.Prelude.{[], codes, IfSome, IfNone};
ghost use Rattle.serde_json.specs.View.{view};
ghost use Rattle.order_text.specs.Lines.{HasMembers};
ghost use Rattle.order_text.specs.Questions.{question_members, IsQuestionRead};
ghost use Rattle.order_text.specs.Private.{FindsQuestion};

use crate::fields::{has_keys, small_at, text_at};
use crate::line::{LineFault, value_of};
use serde_json::Value;
use std::alloc::Global;

/// A question about a market.
#[derive(Clone, Copy, PartialEq, Eq)]
pub enum Question {
    /// Its version, its number of batches and its prices.
    Market,
    /// What the account of whoever asks holds, and its live orders.
    Own,
    /// What the account of this number holds, and its live orders.
    Account(u32),
    /// What the exchange holds.
    Exchange,
}

// Returns the question that an object with the text `account` at `ask` is.
fn about_account(value: &Value) -> Option<Question>
    ensures { FindsQuestion (codes "account") (view value.now) result }
{
    if has_keys(value, 1) {
        return Some(Question::Own);
    }
    let account = small_at(value, "account")?;
    if !has_keys(value, 2) {
        return None;
    }
    Some(Question::Account(account))
}

// Returns the question about the market that an object with the text `market` at `ask` is.
fn about_market(value: &Value) -> Option<Question>
    ensures { FindsQuestion (codes "market") (view value.now) result }
{
    if !has_keys(value, 1) {
        return None;
    }
    Some(Question::Market)
}

// Returns the question about the exchange that an object with the text `exchange` at `ask` is.
fn about_exchange(value: &Value) -> Option<Question>
    ensures { FindsQuestion (codes "exchange") (view value.now) result }
{
    if !has_keys(value, 1) {
        return None;
    }
    Some(Question::Exchange)
}

// Returns the question that an object asks.
fn question_in(value: &Value) -> Option<Question>
    ensures some { IfSome result (λ question. HasMembers [] (view value.now) (question_members question)) }
    ensures none { IfNone result ((question : Question) → ¬ HasMembers [] (view value.now) (question_members question)) }
{
    match text_at(value, "ask")? {
        "market" => about_market(value),
        "account" => about_account(value),
        "exchange" => about_exchange(value),
        _ => None,
    }
}

/// Reads a text as a question about a market. A question is a JSON object with exactly the keys of one row of this table:
///
/// | `ask` | further keys | question |
/// |---|---|---|
/// | `market` | | [`Market`](Question::Market) |
/// | `account` | | [`Own`](Question::Own) |
/// | `account` | `account` | [`Account`](Question::Account) |
/// | `exchange` | | [`Exchange`](Question::Exchange) |
///
/// The number of an account is whole, of 32 bits, without fraction or exponent. If a key is doubled, its last value counts. No
/// question is a command, since each command has the key `do` and no question has it.
///
/// Fails with `NoCommand` only for a text that is no question, and with `Memory` possibly for any. The cost is that of the
/// text's bytes.
pub fn read_question(alloc: Global, text: &[u8]) -> Result<Question, LineFault>
    ensures { IsQuestionRead text.now result }
{
    let value = value_of(alloc, text)?;
    match question_in(&value) {
        Some(question) => Ok(question),
        None => Err(LineFault::NoCommand),
    }
}
