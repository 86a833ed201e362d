//! What came of commands.
ghost use Rattle.std.specs.Prelude.{◌≡◌, ◌<◌, ◌++◌, ℕ, List, [], length, OnOk};
ghost use Rattle.wire_records.specs.Commands.{Plain, Batch};
ghost use Rattle.wire_records.specs.declared.reply.Reply.TheVariants.{Refused};
ghost use Rattle.flow_orders.specs.Outcomes.{Cleared, Skipped};
ghost use Rattle.journal_records.specs.Views.{answer_of};
ghost use Rattle.flow_orders.specs.Residuals.{residual_in};
ghost use Rattle.pair_text.specs.Texts.{◌then◌};
ghost use Rattle.answer_text.specs.Texts.{listed, comma};
ghost use Rattle.answer_text.specs.Answers.{refusal_name, residual_member, reply_members};

use crate::quoted::{put_comma, put_ticker};
use batch_outcome::ClearedParts;
use journal_records::{ClearedView, ReplyView, SkippedView};
use pair_text::Text;
use ticker_table::TickerTable;
use wire_records::{Memory, Refusal, Reply};

// Returns the name of a refusal.
fn refusal_name(refusal: Refusal) -> &'static [u8]
    ensures { result.now ≡ refusal_name refusal }
{
    match refusal {
        Refusal::UnknownTag => b"UnknownTag",
        Refusal::BadBody => b"BadBody",
        Refusal::AssetLimit => b"AssetLimit",
        Refusal::TickerTaken => b"TickerTaken",
        Refusal::BadTicker => b"BadTicker",
        Refusal::AccountLimit => b"AccountLimit",
        Refusal::NoAccount => b"NoAccount",
        Refusal::NoAsset => b"NoAsset",
        Refusal::ZeroAmount => b"ZeroAmount",
        Refusal::TotalLimit => b"TotalLimit",
        Refusal::NotFree => b"NotFree",
        Refusal::BadLimits => b"BadLimits",
        Refusal::BadRate => b"BadRate",
        Refusal::BadCap => b"BadCap",
        Refusal::BadRow => b"BadRow",
        Refusal::OrderLimit => b"OrderLimit",
        Refusal::NoOrder => b"NoOrder",
        Refusal::BadBudget => b"BadBudget",
        Refusal::BatchLimit => b"BatchLimit",
        Refusal::BadLast => b"BadLast",
        Refusal::CreditInUse => b"CreditInUse",
        Refusal::CreditLimit => b"CreditLimit",
    }
}

// Appends a refusal.
fn put_refusal(refusal: Refusal, out: &mut Text) -> Result<(), Memory>
    ensures before { out.new.before ≡ out.old.before }
    ensures put { OnOk result (out.new.text ≡ out.old.text ++ reply_members [] (Plain (Refused refusal))) }
{
    out.put(b",\"refused\":\"")?;
    out.put(refusal_name(refusal))?;
    out.put(b"\"")
}

// Appends a plain reply.
fn put_plain(told: Reply, out: &mut Text) -> Result<(), Memory>
    ensures before { out.new.before ≡ out.old.before }
    ensures put { OnOk result (out.new.text ≡ out.old.text ++ reply_members [] (Plain told)) }
{
    match told {
        Reply::Done => Ok(()),
        Reply::Asset(_) => Ok(()),
        Reply::Account(account) => out.put_number(b",\"account\":", account),
        Reply::Order(order) => out.put_number(b",\"order\":", order),
        Reply::Refused(refusal) => put_refusal(refusal, out),
    }
}

// Returns the imbalance of an asset that has one.
fn residual_at(view: &ClearedView<'_>, asset: u16) -> i64
    requires { asset < length view.now.clearing.residuals }
    ensures { result ≡ residual_in view.now.clearing.residuals asset }
{
    view.residual(asset).unwrap()
}

// Appends the imbalance of an asset, with the comma before it.
fn put_residual(
    tickers: &TickerTable,
    view: &ClearedView<'_>,
    asset: u16,
    out: &mut Text,
) -> Result<(), Memory>
    requires { asset < length view.now.clearing.residuals }
    ensures before { out.new.before ≡ out.old.before }
    ensures put { OnOk result (out.new.text ≡ out.old.text ++ (comma asset then residual_member tickers.now view.now.clearing asset)) }
{
    put_comma(asset as usize, out)?;
    put_ticker(tickers, asset, out)?;
    out.put_number(b":", residual_at(view, asset))
}

// Appends the imbalances of all assets.
fn put_residuals(
    tickers: &TickerTable,
    view: &ClearedView<'_>,
    out: &mut Text,
) -> Result<(), Memory>
    ensures before { out.new.before ≡ out.old.before }
    ensures put { OnOk result (out.new.text ≡ out.old.text
        ++ listed (residual_member tickers.now view.now.clearing) (length view.now.clearing.residuals)) }
{
    for asset in 0..view.price_count() {
        put_residual(tickers, view, asset, out)?;
    }
    Ok(())
}

// Appends what came of a batch that cleared.
fn put_cleared(tickers: &TickerTable, view: &ClearedView<'_>, out: &mut Text) -> Result<(), Memory>
    ensures before { out.new.before ≡ out.old.before }
    ensures put { OnOk result (out.new.text ≡ out.old.text ++ reply_members tickers.now (Batch view.now.batch (Cleared view.now.clearing))) }
{
    out.put_number(b",\"batch\":", view.batch())?;
    out.put_number(b",\"cleared\":true,\"gap\":\"", view.gap())?;
    out.put(b"\",\"residuals\":{")?;
    put_residuals(tickers, view, out)?;
    out.put(b"}")
}

// Appends what came of a batch that was skipped.
fn put_skipped(view: &SkippedView<'_>, out: &mut Text) -> Result<(), Memory>
    ensures before { out.new.before ≡ out.old.before }
    ensures put { OnOk result (out.new.text ≡ out.old.text ++ reply_members [] (Batch view.now.batch (Skipped view.now.skipping))) }
{
    out.put_number(b",\"batch\":", view.batch())?;
    out.put_number(b",\"cleared\":false,\"moves\":", view.trace().len())
}

/// Appends the members of what came of a command, which follow those of the command: the number of its account or of its order,
/// the refusal, or the outcome of its batch, with the gap in grains and the imbalances in units.
pub fn put_reply(
    tickers: &TickerTable,
    answer: &ReplyView<'_>,
    out: &mut Text,
) -> Result<(), Memory>
    ensures before { out.new.before ≡ out.old.before }
    ensures put { OnOk result (out.new.text ≡ out.old.text ++ reply_members tickers.now (answer_of answer.now)) }
{
    match answer {
        ReplyView::Plain(told) => put_plain(*told, out),
        ReplyView::Cleared(view) => put_cleared(tickers, view, out),
        ReplyView::Skipped(view) => put_skipped(view, out),
    }
}
