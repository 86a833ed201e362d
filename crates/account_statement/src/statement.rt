//! A statement, and its public calls.
ghost use Rattle.std.specs.Prelude.{◌≡◌, ◌≤◌, ◌<◌, ◌++◌, length, true, Some, None, IfOk, OnOk, OnErr, vec_capacity};
ghost use Rattle.wire_records.specs.declared.version.Version.{Version};
ghost use Rattle.journal_records.specs.Views.{answer_of};
ghost use Rattle.journal_records.specs.Replies.{EncodesAnswer};
ghost use Rattle.market_rules.specs.Market.{Market as market_value, empty_market};
ghost use Rattle.batch_audit.specs.Legal.{IsLegalPair};
ghost use Rattle.batch_audit.specs.Judging.{IsChangeOf};
ghost use Rattle.statement_rules.specs.Holdings.{nothing};
ghost use Rattle.statement_rules.specs.Statements.{reserved_balance, end_lines, asset_line};
ghost use Rattle.account_statement.specs.Telling.{holding_of, Agrees, AllocatesCopy, IsTold};

use crate::carried::{all_units, copied_tickers, has_account, money_in, own_book};
use batch_audit::Change;
use journal_records::{PairView, ReplyView};
use market_core::Market;
use order_book::Book;
use pair_text::Text;
use statement_lines::{put_asset, put_money};
use std::alloc::Global;
use std::marker::Model;
use ticker_table::TickerTable;
use wire_records::Memory;

/// What an account has by the entries so far, after the empty market or the one that the statement was made from: its own money, units
/// and live orders, the assets that there are, and whether the account is open. Credits and the count of batches change no line, and
/// aren't kept. Contracts see these and whose statement it is; it agrees with a market if what it holds is what the account has there.
pub struct Statement {
    pub(crate) alloc: Global,
    pub(crate) account: u32,
    pub(crate) is_open: bool,
    pub(crate) tickers: TickerTable,
    // In grains.
    pub(crate) money: i128,
    // A balance for each ticker.
    pub(crate) units: Vec<i64>,
    // The live orders of the account alone.
    pub(crate) book: Book,
}

impl Drop for Statement {
    // By hand, so that the end of a value is one call in the proofs of those who own it (docs/PROVING_TRAPS.md).
    fn drop(self) {
        let Statement {
            alloc: _,
            account: _,
            is_open: _,
            tickers: _,
            money: _,
            units: _,
            book: _,
        } = self;
    }
}

impl Model for Statement {
    ghost use Rattle.account_statement.specs.Telling.{Statement as statement_value};
    ghost use Rattle.account_statement.specs.Kept.{statement_in, IsKept};

    ghost Value = { statement_value };

    ghost view = { statement_in };

    ghost invariant = { IsKept };
}

impl Statement {
    /// Makes the statement of an account before the first entry of a journal. There needn't be an account of this
    /// number. Takes no memory.
    pub fn new(alloc: Global, account: u32) -> Statement
        ensures account { result.account ≡ account }
        ensures nothing { (holding_of result) ≡ nothing }
        ensures agrees { (version : Version) → Agrees (empty_market version) result }
    {
        Statement {
            alloc,
            account,
            is_open: false,
            tickers: TickerTable::new(alloc),
            money: 0,
            units: Vec::new(alloc),
            book: Book::new(alloc),
        }
    }

    /// Creates a statement of an account that begins in a market, and agrees with it. There needn't be an account of this number. Copies
    /// what the account has there: the tickers, its money in grains, its units of each asset, and its live orders with their legs. Costs
    /// two look-ups for each asset, one pass over all live orders, and a copy of each own one. The market is as before; if orders were
    /// cancelled since the last call of [`Market::orders`], the gaps that they left in its book are closed.
    ///
    /// `Memory` comes only if the market has an asset, or the account is there.
    pub fn from_market(
        alloc: Global,
        account: u32,
        market: &mut Market,
    ) -> Result<Statement, Memory>
        ensures account { IfOk result (λ statement. statement.account ≡ account) }
        ensures agrees { IfOk result (λ statement. Agrees market.old statement) }
        ensures wanted { OnErr result (AllocatesCopy account market.old) }
        ensures market { market.new ≡ market.old }
    {
        let tickers = copied_tickers(alloc, market.tickers())?;
        let units = all_units(alloc, market.accounts(), account)?;
        let is_open = has_account(market.accounts(), account);
        let money = money_in(market.accounts(), account);
        let book = own_book(alloc, market.orders(), account)?;
        Ok(Statement {
            alloc,
            account,
            is_open,
            tickers,
            money,
            units,
            book,
        })
    }

    /// Returns whether the account is open: `true` exactly if there is an account of this number in a market with which the statement
    /// agrees. Constant cost.
    pub fn is_open(&self) -> bool
        ensures { result ≡ self.now.is_open }
    {
        self.is_open
    }

    /// Takes the next entry: appends the lines of what the account sees of it. The statement agrees with
    /// the market before the entry, `reply` is the answer that its second record encodes, and `change` is what
    /// [`Audit::judge`](batch_audit::Audit::judge) returned for it over this market; afterwards the statement agrees with the
    /// market that the step makes.
    ///
    /// Nothing is appended for an entry before the one that opened the account, for a command that names another account,
    /// for one that names none, except the opening and a batch that was held, and for a record that encodes no command.
    /// Returns `Memory` if there was no memory for the lines, or for what the statement keeps of the entry; then it and
    /// `out` are as before. Costs are those of the [crate](crate).
    pub fn pair(
        &mut self,
        market: &Market,
        pair: &PairView<'_>,
        reply: &ReplyView<'_>,
        change: &Change<'_>,
        out: &mut Vec<u8>,
    ) -> Result<(), Memory>
        requires agrees { Agrees market.now self.old }
        requires replied { EncodesAnswer pair.now.1 (answer_of reply.now) }
        requires change { IsChangeOf market.now pair.now change.now }
        ensures account { self.new.account ≡ self.old.account }
        ensures told { OnOk result ((next : market_value) (legal : IsLegalPair market.now pair.now next)
            → IsTold market.now pair.now self.old self.new out.old.items out.new.items next legal) }
        ensures stays { OnErr result (self.new ≡ self.old) }
        ensures text_stays { OnErr result (out.new.items ≡ out.old.items) }
        ensures room { vec_capacity out.old ≤ vec_capacity out.new }
    {
        let mut text = Text::following(out);
        match self.tell(market, pair, reply, change, &mut text) {
            Ok(()) => {
                *out = text.whole();
                Ok(())
            }
            Err(memory) => {
                *out = text.taken_back();
                Err(memory)
            }
        }
    }

    /// Appends the last lines of the statement: the account's money, in grains, and its units of each asset, each with
    /// what its live orders need. The account is there. After `Memory` `out` is as before. It costs two look-ups for
    /// each asset.
    pub fn finish(&self, out: &mut Vec<u8>) -> Result<(), Memory>
        requires open { self.now.is_open ≡ true }
        ensures told { OnOk result (out.new.items ≡ out.old.items ++ end_lines (holding_of self.now)) }
        ensures text_stays { OnErr result (out.new.items ≡ out.old.items) }
        ensures room { vec_capacity out.old ≤ vec_capacity out.new }
    {
        let mut text = Text::following(out);
        match self.put_end(&mut text) {
            Ok(()) => {
                *out = text.whole();
                Ok(())
            }
            Err(memory) => {
                *out = text.taken_back();
                Err(memory)
            }
        }
    }

    // Appends the last lines.
    fn put_end(&self, out: &mut Text) -> Result<(), Memory>
        ensures before { out.new.before ≡ out.old.before }
        ensures put { OnOk result (out.new.text ≡ out.old.text ++ end_lines (holding_of self.now)) }
    {
        put_money(self.money_held(), self.money_reserved(), out)?;
        for asset in 0..self.tickers.len() {
            self.put_asset(asset, out)?;
        }
        Ok(())
    }

    // Appends the line of an asset that is there.
    fn put_asset(&self, asset: u16, out: &mut Text) -> Result<(), Memory>
        requires { asset < length self.now.tickers }
        ensures before { out.new.before ≡ out.old.before }
        ensures put { OnOk result (out.new.text ≡ out.old.text ++ asset_line (holding_of self.now) asset) }
    {
        put_asset(
            &self.tickers,
            asset,
            self.units_held(asset),
            self.units_reserved(asset),
            out,
        )
    }

    // Returns the money, in grains.
    fn money_held(&self) -> i128
        ensures { result ≡ self.now.money }
    {
        self.money
    }

    // Returns the units of an asset that is there.
    pub(crate) fn units_held(&self, asset: u16) -> i64
        requires { asset < length self.now.tickers }
        ensures { result ≡ (holding_of self.now).units asset }
    {
        self.units[usize::from(asset)]
    }

    // Returns the money that the live orders need, in grains.
    fn money_reserved(&self) -> u128
        ensures { result ≡ reserved_balance (holding_of self.now) None }
    {
        self.book.money_needed(self.account).unsigned_abs()
    }

    // Returns the units of an asset that the live orders need.
    fn units_reserved(&self, asset: u16) -> u128
        ensures { result ≡ reserved_balance (holding_of self.now) (Some asset) }
    {
        self.book.units_needed(self.account, asset).unsigned_abs()
    }
}
