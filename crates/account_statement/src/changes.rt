//! What entries change in what a statement holds.
ghost use Rattle.std.specs.Prelude.{◌≡◌, ℕ, ◌<◌, ◌≤◌, ◌++◌, ◌^◌, ◌+ℤ◌, ◌-ℤ◌, [], ◌∷◌, length, unsigned_abs, Some, All, OnOk, OnErr};
ghost use Rattle.list_sums.specs.Sums.{int_sum_by};
ghost use Rattle.ticker_table.specs.Tickers.{ticker_limit};
ghost use Rattle.ticker_table.specs.Adding.{IsAddable};
ghost use Rattle.flow_accounts.specs.Balances.{value_of as amount_of};
ghost use Rattle.flow_accounts.specs.Lawful.{IsMoneyBalance, IsUnitBalance};
ghost use Rattle.flow_orders.specs.Orders.{terms_of};
ghost use Rattle.flow_orders.specs.Outcomes.{residuals_of};
ghost use Rattle.flow_orders.specs.Residuals.{residual_in};
ghost use Rattle.flow_orders.specs.Trades.{Trade, trades, staying, going_on, paid};
ghost use Rattle.order_book.specs.Book.{HasOrder, without};
ghost use Rattle.market_rules.specs.Step.{ordered};
ghost use Rattle.statement_rules.specs.Views.{Adds, Clears};
ghost use Rattle.statement_rules.specs.Holdings.{changed, after};
ghost use Rattle.account_statement.specs.Telling.{holding_of};
ghost use Rattle.account_statement.specs.Private.{event_of, AreAlike, MayPlace, MayChange, MayTake, MayClear, rates_for, fills_for, trades_for};

use crate::Statement;
use crate::batch::{OwnPart, add_brought};
use crate::event::Event;
use flow_accounts::grains_of;
use flow_orders::Order;
use journal_records::ClearedView;
use weight_rows::WeightRow;
use wire_records::{Memory, PlaceView};

// Returns the 8 bytes of a ticker.
fn ticker_of(bytes: &[u8]) -> [u8; 8]
    requires { length bytes.now ≡ 8 }
    ensures { result ≡ bytes.now }
{
    let mut ticker = [b' '; 8];
    ticker.copy_from_slice(bytes);
    ticker
}

// Returns a balance of units plus an amount.
fn sum_of(units: i64, amount: i128) -> i64
    requires { IsUnitBalance (units +ℤ amount) }
    ensures { result ≡ units +ℤ amount }
{
    (i128::from(units) + amount) as i64
}

// Returns a count of ticks in grains if no asset is given, and else a count of units.
fn value_of(asset: Option<u16>, count: u64) -> i128
    ensures value { result ≡ amount_of asset count }
    ensures small { unsigned_abs result < 2 ^ 96 }
{
    match asset {
        None => grains_of(count),
        Some(_) => i128::from(count),
    }
}

impl Statement {
    // Makes the change of what is seen of a command.
    pub(crate) fn make(&mut self, event: &Event<'_>) -> Result<(), Memory>
        requires { MayTake self.old.account (holding_of self.old) (event_of event.now) }
        ensures account { self.new.account ≡ self.old.account }
        ensures after { OnOk result (AreAlike (holding_of self.new) (after (holding_of self.old) (event_of event.now))) }
        ensures stays { OnErr result (self.new ≡ self.old) }
    {
        match *event {
            Event::Adds(ticker) => self.add_asset(ticker)?,
            Event::Opens(_) => self.is_open = true,
            Event::Deposits(asset, count) => self.change(asset, value_of(asset, count)),
            Event::Withdraws(asset, count) => self.change(asset, -value_of(asset, count)),
            Event::Credits(..) => {}
            Event::Places {
                number,
                last,
                place,
            } => self.place(number, last, place)?,
            Event::Cancels(number) => self.cancel(number),
            Event::Refuses { .. } => {}
        }
        Ok(())
    }

    // Changes what the account has of money, in grains, if no asset is given, and else its units of this asset.
    fn change(&mut self, asset: Option<u16>, amount: i128)
        requires { MayChange (holding_of self.old) asset amount }
        ensures account { self.new.account ≡ self.old.account }
        ensures after { AreAlike (holding_of self.new) (changed (holding_of self.old) asset amount) }
    {
        match asset {
            None => self.add_money(amount),
            Some(asset) => self.add_units(asset, amount),
        }
    }

    // Changes the money by an amount in grains.
    fn add_money(&mut self, amount: i128)
        requires { IsMoneyBalance (self.old.money +ℤ amount) }
        ensures { self.new ≡ record (self.old) { money = self.old.money +ℤ amount } }
    {
        self.money += amount;
    }

    // Changes the units of an asset that is there.
    fn add_units(&mut self, asset: u16, amount: i128)
        requires there { asset < length self.old.tickers }
        requires fits { IsUnitBalance ((holding_of self.old).units asset +ℤ amount) }
        ensures account { self.new.account ≡ self.old.account }
        ensures after { AreAlike (holding_of self.new) (changed (holding_of self.old) (Some asset) amount) }
    {
        let place = usize::from(asset);
        let units = sum_of(self.units_held(asset), amount);
        self.units[place] = units;
    }

    // Adds the order that was placed under a number.
    fn place(&mut self, number: u64, last: Option<u32>, place: &PlaceView<'_>) -> Result<(), Memory>
        requires { MayPlace self.old.account (holding_of self.old) number place.now }
        ensures after { OnOk result (self.new ≡ record (self.old) { orders = self.old.orders ++ ordered number last place.now ∷ [] }) }
        ensures stays { OnErr result (self.new ≡ self.old) }
    {
        self.book.reserve_one()?;
        let row = WeightRow::new(place.row().to_list(self.alloc)?);
        self.book.add(Order::restore(
            number,
            place.account(),
            place.low(),
            place.high(),
            place.rate(),
            place.cap(),
            0,
            last.unwrap_or(0),
            row,
        ));
        Ok(())
    }

    // Cancels a live order.
    fn cancel(&mut self, number: u64)
        requires { HasOrder self.old.orders self.old.account number }
        ensures { self.new ≡ record (self.old) { orders = without self.old.orders number } }
    {
        let _there = self.book.cancel(self.account, number);
    }

    // Adds an asset, of which the account has nothing.
    pub(crate) fn add_asset(&mut self, ticker: &[u8]) -> Result<(), Memory>
        requires { IsAddable ticker_limit self.old.tickers ticker.now }
        ensures account { self.new.account ≡ self.old.account }
        ensures after { OnOk result (AreAlike (holding_of self.new) (after (holding_of self.old) (Adds ticker.now))) }
        ensures stays { OnErr result (self.new ≡ self.old) }
    {
        self.units.reserve(1)?;
        match self.tickers.add(ticker_of(ticker)) {
            Ok(_) => {
                self.units.push_reserved(0);
                Ok(())
            }
            Err(_) => Err(Memory),
        }
    }

    // Makes the change of a batch that cleared.
    pub(crate) fn settle(&mut self, view: &ClearedView<'_>, part: &OwnPart)
        requires may { MayClear (holding_of self.old) view.now.clearing }
        requires rates { part.now.rates.items ≡ rates_for view.now.clearing.fills self.old.orders }
        requires brought { part.now.brought.items
            ≡ residuals_of (length view.now.clearing.prices) (trades_for view.now.clearing.fills self.old.orders) }
        requires cost { part.now.cost
            ≡ int_sum_by (paid view.now.clearing.prices) (trades_for view.now.clearing.fills self.old.orders) }
        ensures account { self.new.account ≡ self.old.account }
        ensures after { AreAlike (holding_of self.new) (after (holding_of self.old) (Clears view.now.batch view.now.clearing.prices
            (fills_for view.now.clearing.fills self.old.orders))) }
    {
        self.take_money(part.cost());
        self.receive(part.brought.as_slice());
        self.fill(part.rates.as_slice(), view.batch());
    }

    // Subtracts an amount of money, in grains, which may be negative.
    fn take_money(&mut self, amount: i128)
        requires { IsMoneyBalance (self.old.money -ℤ amount) }
        ensures { self.new ≡ record (self.old) { money = self.old.money -ℤ amount } }
    {
        self.money -= amount;
    }

    // Adds to the units what the batch brought of each asset.
    fn receive(&mut self, brought: &[i64])
        requires places { length brought.now ≡ length self.old.tickers }
        requires fits { (asset : ℕ) → asset < length self.old.tickers → IsUnitBalance (residual_in self.old.units asset +ℤ residual_in brought.now asset) }
        ensures others { self.new ≡ record (self.old) { units = self.new.units } }
        ensures count { length self.new.units ≡ length self.old.tickers }
        ensures each { (asset : ℕ) → asset < length self.old.tickers → residual_in self.new.units asset ≡ residual_in self.old.units asset +ℤ residual_in brought.now asset }
    {
        add_brought(self.units.as_mut_slice(), brought);
    }

    // Fills the orders by these rates, in a batch of this number.
    fn fill(&mut self, rates: &[u32], batch: u32)
        requires count { length rates.now ≡ length self.old.orders }
        requires within { All (λ (t : Trade). t.traded ≤ (terms_of t.order).room) (trades self.old.orders rates.now) }
        ensures { self.new ≡ record (self.old) { orders = going_on batch (staying (trades self.old.orders rates.now)) } }
    {
        self.book.fill(rates);
        self.book.end(batch);
    }
}
