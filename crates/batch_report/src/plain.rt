//! The lines of commands that hold no batch.
ghost use Rattle.std.specs.Prelude.{◌≡◌, ◌++◌, ℕ, List, [], None, Some, Ok, OnOk, codes, decimal};
ghost use Rattle.wire_records.specs.Commands.{Plain};
ghost use Rattle.wire_records.specs.Refusals.{code_of};
ghost use Rattle.wire_records.specs.Views.{command_of};
ghost use Rattle.pair_text.specs.Texts.{◌then◌, asset_name};
ghost use Rattle.batch_report.specs.Reports.{amount_text, numbers_text, order_text, command_text};
ghost use Rattle.batch_report.specs.Private.{told_text};

use pair_text::Text;
use ticker_table::TickerTable;
use wire_records::{CommandView, Memory, PlaceView, Refusal, Reply};

// Appends a deposit, a withdrawal or a credit in money.
fn put_money(word: &[u8], account: u32, ticks: u64, out: &mut Text) -> Result<(), Memory>
    ensures before { out.new.before ≡ out.old.before }
    ensures put { OnOk result (out.new.text ≡ out.old.text ++ amount_text word.now [] account None ticks) }
{
    out.put(word)?;
    out.put_number(b" account ", account)?;
    out.put_number(b" ticks ", ticks)
}

// Appends a deposit, a withdrawal or a credit in an asset's units.
fn put_units(
    word: &[u8],
    tickers: &TickerTable,
    account: u32,
    asset: u16,
    units: u64,
    out: &mut Text,
) -> Result<(), Memory>
    ensures before { out.new.before ≡ out.old.before }
    ensures put { OnOk result (out.new.text ≡ out.old.text ++ amount_text word.now tickers.now account (Some asset) units) }
{
    out.put(word)?;
    out.put_number(b" account ", account)?;
    out.put_name(b" ", tickers, asset)?;
    out.put_number(b" units ", units)
}

// Appends an order's number, and the numbers of its request.
fn put_numbers(place: &PlaceView<'_>, order: u64, out: &mut Text) -> Result<(), Memory>
    ensures before { out.new.before ≡ out.old.before }
    ensures put { OnOk result (out.new.text ≡ out.old.text ++ numbers_text order place.now) }
{
    out.put_number(b"order ", order)?;
    out.put_number(b" account ", place.account())?;
    out.put_number(b" low ", place.low())?;
    out.put_number(b" high ", place.high())?;
    out.put_number(b" rate ", place.rate())?;
    out.put_number(b" cap ", place.cap())
}

// Appends an order under its number.
fn put_order(
    tickers: &TickerTable,
    last: Option<u32>,
    place: &PlaceView<'_>,
    order: u64,
    out: &mut Text,
) -> Result<(), Memory>
    ensures before { out.new.before ≡ out.old.before }
    ensures put { OnOk result (out.new.text ≡ out.old.text ++ order_text tickers.now order last place.now) }
{
    put_numbers(place, order, out)?;
    out.put_last(last)?;
    out.put_entries(tickers, &place.row())
}

// Appends a command that was accepted, without the end of its line, with the number that its order got.
fn put_command(
    tickers: &TickerTable,
    command: &CommandView<'_>,
    order: u64,
    out: &mut Text,
) -> Result<(), Memory>
    ensures before { out.new.before ≡ out.old.before }
    ensures put { OnOk result (out.new.text ≡ out.old.text ++ command_text tickers.now order (command_of command.now)) }
{
    match *command {
        CommandView::DepositMoney { account, ticks } => put_money(b"deposit", account, ticks, out),
        CommandView::DepositAsset {
            account,
            asset,
            units,
        } => put_units(b"deposit", tickers, account, asset, units, out),
        CommandView::WithdrawMoney { account, ticks } => {
            put_money(b"withdraw", account, ticks, out)
        }
        CommandView::WithdrawAsset {
            account,
            asset,
            units,
        } => put_units(b"withdraw", tickers, account, asset, units, out),
        CommandView::PlaceOrder(ref place) => put_order(tickers, None, place, order, out),
        CommandView::CancelOrder { order, .. } => out.put_number(b"cancel order ", order),
        CommandView::PlaceUntil { last, ref place } => {
            put_order(tickers, Some(last), place, order, out)
        }
        CommandView::SetMoneyCredit { account, ticks } => put_money(b"credit", account, ticks, out),
        CommandView::SetUnitCredit {
            account,
            asset,
            units,
        } => put_units(b"credit", tickers, account, asset, units, out),
        CommandView::AddAsset(_) => Ok(()),
        CommandView::OpenAccount => Ok(()),
        CommandView::RunBatch { .. } => Ok(()),
    }
}

// Appends the line of a command that was accepted, with the number that its order got.
fn put_accepted(
    tickers: &TickerTable,
    command: &CommandView<'_>,
    order: u64,
    out: &mut Text,
) -> Result<(), Memory>
    ensures before { out.new.before ≡ out.old.before }
    ensures put { OnOk result (out.new.text ≡ out.old.text
        ++ (command_text tickers.now order (command_of command.now) then codes "\n")) }
{
    put_command(tickers, command, order, out)?;
    out.put(b"\n")
}

// Appends the line of a new asset.
fn put_asset(tickers: &TickerTable, asset: u16, out: &mut Text) -> Result<(), Memory>
    ensures before { out.new.before ≡ out.old.before }
    ensures put { OnOk result (out.new.text ≡ out.old.text
        ++ (codes "asset " then decimal asset then codes " " then asset_name tickers.now asset then codes "\n")) }
{
    out.put_number(b"asset ", asset)?;
    out.put_name(b" ", tickers, asset)?;
    out.put(b"\n")
}

// Appends the line of a new account.
fn put_account(account: u32, out: &mut Text) -> Result<(), Memory>
    ensures before { out.new.before ≡ out.old.before }
    ensures put { OnOk result (out.new.text ≡ out.old.text ++ (codes "account " then decimal account then codes "\n")) }
{
    out.put_number(b"account ", account)?;
    out.put(b"\n")
}

// Appends the line of a refusal.
pub(crate) fn put_refused(refusal: Refusal, out: &mut Text) -> Result<(), Memory>
    ensures before { out.new.before ≡ out.old.before }
    ensures put { OnOk result (out.new.text ≡ out.old.text ++ (codes "refused " then decimal (code_of refusal) then codes "\n")) }
{
    out.put_number(b"refused ", refusal.code())?;
    out.put(b"\n")
}

// Appends the line of a plain reply to a command.
pub(crate) fn put_plain(
    tickers: &TickerTable,
    command: &CommandView<'_>,
    told: Reply,
    out: &mut Text,
) -> Result<(), Memory>
    ensures before { out.new.before ≡ out.old.before }
    ensures put { OnOk result (out.new.text ≡ out.old.text ++ told_text tickers.now (command_of command.now) (Plain told)) }
{
    match told {
        Reply::Done => put_accepted(tickers, command, 0, out),
        Reply::Asset(asset) => put_asset(tickers, asset, out),
        Reply::Account(account) => put_account(account, out),
        Reply::Order(order) => put_accepted(tickers, command, order, out),
        Reply::Refused(refusal) => put_refused(refusal, out),
    }
}
