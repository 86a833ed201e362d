//! Commands, and which of them a record encodes.
ghost use Rattle.std.specs.Prelude.{◌≡◌, ◌≢◌, ◌<◌, ◌^◌, ◌++◌, length, IfSome, IfNone};
ghost use Rattle.wire_fields.specs.Numbers.{unsigned};
ghost use Rattle.wire_records.specs.CommandRecords.{IsRead};
ghost use Rattle.wire_records.specs.Views.{reading};
ghost use Rattle.wire_records.specs.Private.{IsAccountTag, IsAssetTag};

use crate::place::{place_at, place_in, until_in};
use crate::{PlaceView, RecordView};
use weight_rows::EntryList;
use wire_fields::Cursor;

/// A command that owns its fields. An account is a number from 1, an asset a number from 0, and money is in
/// ticks of 2^32 grains. Each number may be any of its width: the market says which it accepts.
#[derive(Drop)]
pub enum Command {
    /// Adds an asset under this ticker: one to eight characters, padded with spaces to eight bytes.
    AddAsset {
        ticker: [u8; 8],
    },
    /// Opens an account.
    OpenAccount,
    /// Deposits ticks into an account.
    DepositMoney {
        account: u32,
        ticks: u64,
    },
    /// Deposits whole units of an asset into an account.
    DepositAsset {
        account: u32,
        asset: u16,
        units: u64,
    },
    /// Withdraws ticks from an account.
    WithdrawMoney {
        account: u32,
        ticks: u64,
    },
    /// Withdraws whole units of an asset from an account.
    WithdrawAsset {
        account: u32,
        asset: u16,
        units: u64,
    },
    /// Places an order of an account for a portfolio (Budish, Cramton, Kyle, Lee and Malec, "Flow Trading", 2023). It buys
    /// `rate` units a batch at portfolio prices up to `low`, fewer above that and none from `high` on, both in
    /// ticks, and at most `cap` units in all. `row` says which assets one unit has, with what weights.
    PlaceOrder {
        account: u32,
        low: i64,
        high: i64,
        rate: u32,
        cap: u64,
        row: EntryList,
    },
    /// Cancels the order of this number, from 1, which leaves the book. It has to be the account's own.
    CancelOrder {
        account: u32,
        order: u64,
    },
    /// Runs a batch, which searches its prices with at most `budget` moves.
    RunBatch {
        budget: u32,
    },
    /// Places an order as [`Command::PlaceOrder`] does, but it trades for the last time in the batch of number `last`,
    /// and leaves the book after it. From version Two on.
    PlaceUntil {
        last: u32,
        account: u32,
        low: i64,
        high: i64,
        rate: u32,
        cap: u64,
        row: EntryList,
    },
    /// Sets an account's credit in money, in ticks: how far its balance may fall below 0 for its orders. From version Two on.
    SetMoneyCredit {
        account: u32,
        ticks: u64,
    },
    /// Sets an account's credit in an asset, in whole units. From version Two on.
    SetUnitCredit {
        account: u32,
        asset: u16,
        units: u64,
    },
}

// The bytes of the head of a record, and those of a last batch after it.
const HEAD: usize = 5;

const LAST: usize = 4;

impl Command {
    ghost use Rattle.std.specs.Prelude.{List, ℕ};
    ghost use Rattle.wire_records.specs.Records.{encoding};
    ghost use Rattle.wire_records.specs.CommandRecords.{tag_of, record_of, IsCommand};
    ghost use Rattle.wire_records.specs.Views.{command_in, command_of};

    /// Returns the tag of the command's record, 1 to 12.
    pub fn tag(&self) -> u8
        ensures { result ≡ tag_of (command_in self.now) }
    {
        match self {
            Command::AddAsset { .. } => 1,
            Command::OpenAccount => 2,
            Command::DepositMoney { .. } => 3,
            Command::DepositAsset { .. } => 4,
            Command::WithdrawMoney { .. } => 5,
            Command::WithdrawAsset { .. } => 6,
            Command::PlaceOrder { .. } => 7,
            Command::CancelOrder { .. } => 8,
            Command::RunBatch { .. } => 9,
            Command::PlaceUntil { .. } => 10,
            Command::SetMoneyCredit { .. } => 11,
            Command::SetUnitCredit { .. } => 12,
        }
    }

    /// Returns the command as it is read from bytes that begin with its record, as [`write_command`](crate::write_command)
    /// wrote it, without a look at them: an order is lent out where it is in the bytes. Constant cost.
    pub fn view<'a>(&'a self, bytes: &'a [u8]) -> CommandView<'a>
        requires fits { IsCommand (command_in self.now) }
        requires written { (rest : List ℕ) × (bytes.now ≡ encoding (record_of (command_in self.now)) ++ rest) }
        ensures { command_of result ≡ command_in self.now }
    {
        match self {
            Command::AddAsset { ticker } => CommandView::AddAsset(ticker),
            Command::OpenAccount => CommandView::OpenAccount,
            Command::DepositMoney { account, ticks } => CommandView::DepositMoney {
                account: *account,
                ticks: *ticks,
            },
            Command::DepositAsset {
                account,
                asset,
                units,
            } => CommandView::DepositAsset {
                account: *account,
                asset: *asset,
                units: *units,
            },
            Command::WithdrawMoney { account, ticks } => CommandView::WithdrawMoney {
                account: *account,
                ticks: *ticks,
            },
            Command::WithdrawAsset {
                account,
                asset,
                units,
            } => CommandView::WithdrawAsset {
                account: *account,
                asset: *asset,
                units: *units,
            },
            Command::PlaceOrder { row, .. } => {
                CommandView::PlaceOrder(place_at(bytes, HEAD, row.as_slice().len()))
            }
            Command::CancelOrder { account, order } => CommandView::CancelOrder {
                account: *account,
                order: *order,
            },
            Command::RunBatch { budget } => CommandView::RunBatch { budget: *budget },
            Command::PlaceUntil { last, row, .. } => CommandView::PlaceUntil {
                last: *last,
                place: place_at(bytes, HEAD + LAST, row.as_slice().len()),
            },
            Command::SetMoneyCredit { account, ticks } => CommandView::SetMoneyCredit {
                account: *account,
                ticks: *ticks,
            },
            Command::SetUnitCredit {
                account,
                asset,
                units,
            } => CommandView::SetUnitCredit {
                account: *account,
                asset: *asset,
                units: *units,
            },
        }
    }
}

/// A command in borrowed bytes: the fields are those of [`Command`], in the same units.
#[derive(Drop)]
pub enum CommandView<'a> {
    /// Adds an asset under this ticker. It has 8 bytes, of any value: a record gives no other length.
    AddAsset(&'a [u8]),
    /// Opens an account.
    OpenAccount,
    /// Deposits ticks into an account.
    DepositMoney {
        account: u32,
        ticks: u64,
    },
    /// Deposits whole units of an asset into an account.
    DepositAsset {
        account: u32,
        asset: u16,
        units: u64,
    },
    /// Withdraws ticks from an account.
    WithdrawMoney {
        account: u32,
        ticks: u64,
    },
    /// Withdraws whole units of an asset from an account.
    WithdrawAsset {
        account: u32,
        asset: u16,
        units: u64,
    },
    /// Places an order of an account for a portfolio.
    PlaceOrder(PlaceView<'a>),
    /// Cancels the order of this number, from 1.
    CancelOrder {
        account: u32,
        order: u64,
    },
    /// Runs a batch, which searches its prices with at most `budget` moves.
    RunBatch {
        budget: u32,
    },
    /// Places an order of an account for a portfolio, which trades for the last time in the batch of this number.
    PlaceUntil {
        last: u32,
        place: PlaceView<'a>,
    },
    /// Sets an account's credit in money, in ticks.
    SetMoneyCredit {
        account: u32,
        ticks: u64,
    },
    /// Sets an account's credit in an asset, in whole units.
    SetUnitCredit {
        account: u32,
        asset: u16,
        units: u64,
    },
}

/// Why a record encodes no command.
#[derive(Clone, Copy, PartialEq, Eq)]
pub enum BodyFault {
    /// No command has the tag.
    UnknownTag,
    /// No command of the tag has this body.
    BadBody,
}

// An account and an amount, or an account and an order, if the body has exactly their 12 bytes.
fn money_fields(body: &[u8]) -> Option<(u32, u64)>
    ensures encoded { IfSome result (λ fields. body.now ≡ unsigned 4 fields.0 ++ unsigned 8 fields.1) }
    ensures fits { IfSome result (λ fields. (fields.0 < 2 ^ 32) × (fields.1 < 2 ^ 64)) }
    ensures other { IfNone result (length body.now ≢ 12) }
{
    let mut cursor = Cursor::new(body);
    let account = cursor.take_u32()?;
    let ticks = cursor.take_u64()?;
    if cursor.left() != 0 {
        return None;
    }
    Some((account, ticks))
}

// An account, an asset and an amount, if the body has exactly their 14 bytes.
fn asset_fields(body: &[u8]) -> Option<(u32, u16, u64)>
    ensures encoded { IfSome result (λ fields. body.now
        ≡ unsigned 4 fields.0 ++ (unsigned 2 fields.1 ++ unsigned 8 fields.2)) }
    ensures fits { IfSome result (λ fields. (fields.0 < 2 ^ 32) × (fields.1 < 2 ^ 16) × (fields.2 < 2 ^ 64)) }
    ensures other { IfNone result (length body.now ≢ 14) }
{
    let mut cursor = Cursor::new(body);
    let account = cursor.take_u32()?;
    let asset = cursor.take_u16()?;
    let units = cursor.take_u64()?;
    if cursor.left() != 0 {
        return None;
    }
    Some((account, asset, units))
}

// A budget, if the body has exactly its 4 bytes.
fn batch_field(body: &[u8]) -> Option<u32>
    ensures encoded { IfSome result (λ budget. body.now ≡ unsigned 4 budget) }
    ensures fits { IfSome result (λ budget. budget < 2 ^ 32) }
    ensures other { IfNone result (length body.now ≢ 4) }
{
    let mut cursor = Cursor::new(body);
    let budget = cursor.take_u32()?;
    if cursor.left() != 0 {
        return None;
    }
    Some(budget)
}

// The command of an account and an amount, or an order, that a record of this tag and body encodes.
fn account_command<'a>(tag: u8, body: &[u8]) -> Result<CommandView<'a>, BodyFault>
    requires { IsAccountTag tag }
    ensures { IsRead (record { tag = tag; body = body.now }) (reading result) }
{
    match money_fields(body) {
        Some((account, amount)) => match tag {
            3 => Ok(CommandView::DepositMoney {
                account,
                ticks: amount,
            }),
            5 => Ok(CommandView::WithdrawMoney {
                account,
                ticks: amount,
            }),
            8 => Ok(CommandView::CancelOrder {
                account,
                order: amount,
            }),
            _ => Ok(CommandView::SetMoneyCredit {
                account,
                ticks: amount,
            }),
        },
        None => Err(BodyFault::BadBody),
    }
}

// The command of an account, an asset and an amount that a record of this tag and body encodes.
fn asset_command<'a>(tag: u8, body: &[u8]) -> Result<CommandView<'a>, BodyFault>
    requires { IsAssetTag tag }
    ensures { IsRead (record { tag = tag; body = body.now }) (reading result) }
{
    match asset_fields(body) {
        Some((account, asset, units)) => match tag {
            4 => Ok(CommandView::DepositAsset {
                account,
                asset,
                units,
            }),
            6 => Ok(CommandView::WithdrawAsset {
                account,
                asset,
                units,
            }),
            _ => Ok(CommandView::SetUnitCredit {
                account,
                asset,
                units,
            }),
        },
        None => Err(BodyFault::BadBody),
    }
}

// The order that a record of this body encodes.
fn order_command(body: &[u8]) -> Result<CommandView<'_>, BodyFault>
    ensures { IsRead (record { tag = 7; body = body.now }) (reading result) }
{
    match place_in(body) {
        Some(place) => Ok(CommandView::PlaceOrder(place)),
        None => Err(BodyFault::BadBody),
    }
}

// The order with its last batch that a record of this body encodes.
fn until_command(body: &[u8]) -> Result<CommandView<'_>, BodyFault>
    ensures { IsRead (record { tag = 10; body = body.now }) (reading result) }
{
    match until_in(body) {
        Some((last, place)) => Ok(CommandView::PlaceUntil { last, place }),
        None => Err(BodyFault::BadBody),
    }
}

// The batch that a record of this body encodes.
fn batch_command<'a>(body: &[u8]) -> Result<CommandView<'a>, BodyFault>
    ensures { IsRead (record { tag = 9; body = body.now }) (reading result) }
{
    match batch_field(body) {
        Some(budget) => Ok(CommandView::RunBatch { budget }),
        None => Err(BodyFault::BadBody),
    }
}

impl<'a> RecordView<'a> {
    /// Returns the command that the record encodes, of any version, with its fields in the borrowed bytes. Constant cost.
    ///
    /// `UnknownTag` exactly if the tag is outside 1 to 12; `BadBody` exactly if it is 1 to 12 and no command of
    /// the tag has this body: it has a byte more or fewer than the fields take. The legs of an order aren't looked at,
    /// except for how many bytes they take.
    #[inline(always)]
    pub fn command(&self) -> Result<CommandView<'a>, BodyFault>
        ensures { IsRead self.now (reading result) }
    {
        let body = self.body();
        match self.tag() {
            1 if body.len() == 8 => Ok(CommandView::AddAsset(body)),
            2 if body.is_empty() => Ok(CommandView::OpenAccount),
            7 => order_command(body),
            9 => batch_command(body),
            10 => until_command(body),
            tag @ (3 | 5 | 8 | 11) => account_command(tag, body),
            tag @ (4 | 6 | 12) => asset_command(tag, body),
            1 | 2 => Err(BodyFault::BadBody),
            _ => Err(BodyFault::UnknownTag),
        }
    }
}
