//! What the market would reply: the command that a record encodes, and the reply that a command gets. Nothing is
//! changed.
ghost use Rattle.std.specs.Prelude.{◌≡◌, ℕ, ◌+◌, ◌<◌, ◌^◌, Some, None, Ok, Err, IfOk, IfErr, length};
ghost use Rattle.wire_records.specs.Commands.{AddAsset, OpenAccount, Deposit, Withdraw, Place, CancelOrder, RunBatch, SetCredit};
ghost use Rattle.wire_records.specs.CommandRecords.{IsCommand};
ghost use Rattle.wire_records.specs.Versions.{IsOfVersion, IsReadAs};
ghost use Rattle.wire_records.specs.Views.{command_of};
ghost use Rattle.wire_records.specs.declared.command.BodyFault.{BodyFault as body_fault};
ghost use Rattle.market_rules.specs.Step.{refusal_of};
ghost use Rattle.market_core.specs.Expected.{IsExpected};

use crate::Market;
use crate::market::{refusal_of, reply_to, ticker_refusal};
use crate::orders::cancel_reply;
use flow_accounts::AccountFault;
use wire_records::{BodyFault, CommandView, PlaceView, RecordView, Refusal, Reply};

// Returns the refusal of a record that can't be served.
fn body_refusal(fault: BodyFault) -> Refusal
    ensures { result ≡ refusal_of fault }
{
    match fault {
        BodyFault::UnknownTag => Refusal::UnknownTag,
        BodyFault::BadBody => Refusal::BadBody,
    }
}

impl Market {
    /// Returns the command of the market's version that a record encodes, with its fields borrowed from the record's
    /// bytes, or the refusal that the record gets: `UnknownTag` exactly if no command of the version has the tag,
    /// `BadBody` exactly if one has it, but not this body. Constant cost.
    #[inline(always)]
    pub fn read<'a>(&self, asked: &RecordView<'a>) -> Result<CommandView<'a>, Refusal>
        ensures command { IfOk result (λ command. IsReadAs self.now.version asked.now (Ok (command_of command))) }
        ensures fault { IfErr result (λ refusal. (why : body_fault) × IsReadAs self.now.version asked.now (Err why) × (refusal ≡ refusal_of why)) }
    {
        if asked.tag() > self.version.most_tag() {
            return Err(Refusal::UnknownTag);
        }
        match asked.command() {
            Ok(command) => Ok(command),
            Err(fault) => Err(body_refusal(fault)),
        }
    }

    /// Returns the reply that a command gets now: the one that [`Market::apply`] gives unless memory runs out. The
    /// command is of the market's version and holds no batch, and the number that the next order gets is below
    /// 2^64 - 1.
    ///
    /// Takes no memory. The cost is constant, however many accounts and orders there are, with two exceptions: an order
    /// is checked leg by leg, and an order to be cancelled is found by its number, in as many steps as the count of
    /// live orders has bits.
    pub fn expected(&self, command: &CommandView<'_>) -> Reply
        requires command { IsCommand (command_of command.now) }
        requires version { IsOfVersion self.now.version (command_of command.now) }
        requires no_batch { (budget : ℕ) → ¬ (command_of command.now ≡ RunBatch budget) }
        requires next { self.now.next_order + 1 < 2 ^ 64 }
        ensures { IsExpected self.now (command_of command.now) result }
    {
        match *command {
            CommandView::AddAsset(ticker) => self.expected_asset(ticker),
            CommandView::OpenAccount => self.expected_account(),
            CommandView::DepositMoney { account, ticks } => {
                self.expected_money_deposit(account, ticks)
            }
            CommandView::DepositAsset {
                account,
                asset,
                units,
            } => self.expected_unit_deposit(account, asset, units),
            CommandView::WithdrawMoney { account, ticks } => {
                self.expected_money_withdrawal(account, ticks)
            }
            CommandView::WithdrawAsset {
                account,
                asset,
                units,
            } => self.expected_unit_withdrawal(account, asset, units),
            CommandView::PlaceOrder(ref place) => self.expected_order(None, place),
            CommandView::CancelOrder { account, order } => self.expected_cancel(account, order),
            CommandView::RunBatch { .. } => unreachable!(),
            CommandView::PlaceUntil { last, ref place } => self.expected_order(Some(last), place),
            CommandView::SetMoneyCredit { account, ticks } => {
                self.expected_money_credit(account, ticks)
            }
            CommandView::SetUnitCredit {
                account,
                asset,
                units,
            } => self.expected_unit_credit(account, asset, units),
        }
    }

    fn expected_asset(&self, ticker: &[u8]) -> Reply
        requires { length ticker.now ≡ 8 }
        ensures { IsExpected self.now (AddAsset ticker.now) result }
    {
        let mut bytes = [0u8; 8];
        bytes.copy_from_slice(ticker);
        match self.tickers.fault(&bytes, self.version.limits().assets) {
            Some(fault) => Reply::Refused(ticker_refusal(fault)),
            None => Reply::Asset(self.tickers.len()),
        }
    }

    fn expected_account(&self) -> Reply
        ensures { IsExpected self.now OpenAccount result }
    {
        if self.accounts.is_full() {
            return Reply::Refused(refusal_of(AccountFault::Full));
        }
        Reply::Account(self.accounts.count() + 1)
    }

    fn expected_money_deposit(&self, account: u32, ticks: u64) -> Reply
        ensures { IsExpected self.now (Deposit account None ticks) result }
    {
        reply_to(self.accounts.money_deposit(account, ticks))
    }

    fn expected_unit_deposit(&self, account: u32, asset: u16, units: u64) -> Reply
        ensures { IsExpected self.now (Deposit account (Some asset) units) result }
    {
        reply_to(self.accounts.unit_deposit(account, asset, units))
    }

    fn expected_money_withdrawal(&self, account: u32, ticks: u64) -> Reply
        ensures { IsExpected self.now (Withdraw account None ticks) result }
    {
        let reserved = self.book.money_needed(account);
        reply_to(self.accounts.money_withdrawal(account, ticks, reserved))
    }

    fn expected_unit_withdrawal(&self, account: u32, asset: u16, units: u64) -> Reply
        ensures { IsExpected self.now (Withdraw account (Some asset) units) result }
    {
        let reserved = self.book.units_needed(account, asset);
        reply_to(
            self.accounts
                .unit_withdrawal(account, asset, units, reserved),
        )
    }

    fn expected_order(&self, last: Option<u32>, place: &PlaceView<'_>) -> Reply
        ensures { IsExpected self.now (Place last place.now) result }
    {
        match self.place_refusal(last, place) {
            Some(refusal) => Reply::Refused(refusal),
            None => Reply::Order(self.next_order),
        }
    }

    fn expected_money_credit(&self, account: u32, ticks: u64) -> Reply
        ensures { IsExpected self.now (SetCredit account None ticks) result }
    {
        let reserved = self.book.money_needed(account);
        reply_to(self.accounts.money_credit_fault(account, ticks, reserved))
    }

    fn expected_unit_credit(&self, account: u32, asset: u16, units: u64) -> Reply
        ensures { IsExpected self.now (SetCredit account (Some asset) units) result }
    {
        let reserved = self.book.units_needed(account, asset);
        reply_to(
            self.accounts
                .unit_credit_fault(account, asset, units, reserved),
        )
    }

    fn expected_cancel(&self, account: u32, number: u64) -> Reply
        ensures { IsExpected self.now (CancelOrder account number) result }
    {
        if self.accounts.money(account).is_none() {
            return Reply::Refused(Refusal::NoAccount);
        }
        cancel_reply(self.book.has_order(account, number))
    }
}
