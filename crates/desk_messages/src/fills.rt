//! What accounts are told of a batch that cleared.
ghost use Rattle.std.specs.Prelude.{◌≡◌, ◌<◌, ◌≤◌, ◌+◌, ◌^◌, length, All, OnOk, vec_capacity};
ghost use Rattle.weight_rows.specs.Rows.{IsPrice, IsPricedBy};
ghost use Rattle.flow_orders.specs.Trades.{Trade};
ghost use Rattle.desk_messages.specs.Messages.{Tells, cost_of, own_costs, fill_message, fill_messages};
ghost use Rattle.desk_messages.specs.Batches.{FitsBook};
ghost use Rattle.desk_messages.specs.Private.{AreLinked, rate_in};

use crate::counts::Desks;
use crate::links::{Links, links_of};
use answer_text::{FillCost, Recipient, put_end, put_fills};
use batch_outcome::ClearedParts;
use flow_orders::Order;
use journal_records::ClearedView;
use pair_text::Text;
use std::alloc::Global;
use wire_records::Memory;

// Returns the rate at a place that has one.
fn rate_at(view: &ClearedView<'_>, place: usize) -> u32
    requires there { place < length view.now.clearing.fills }
    requires few { length view.now.clearing.fills < 2 ^ 32 }
    ensures { result ≡ rate_in view.now.clearing.fills place }
{
    view.rate(place as u32).unwrap()
}

// Returns what an order traded, and what that costs.
fn fill_cost(order: &Order, rate: u32, prices: &[i64]) -> FillCost
    requires range { All IsPrice prices.now }
    requires priced { IsPricedBy order.now.row prices.now }
    ensures { result ≡ cost_of prices.now (record { order = order.now; traded = rate }) }
{
    FillCost {
        order: order.number(),
        rate,
        cost: i128::from(rate) * order.row().price(prices),
    }
}

// Puts what an account's own orders traded into `own`, which has room for all orders.
#[tactic(auto, using(flow_orders::proofs::Limits::orders_fit))]
fn collect(
    links: &Links,
    account: usize,
    orders: &[Order],
    view: &ClearedView<'_>,
    prices: &[i64],
    own: &mut Vec<FillCost>,
)
    requires fits { FitsBook (length links.now.firsts.items) orders.now view.now.clearing }
    requires prices { prices.now ≡ view.now.clearing.prices }
    requires linked { AreLinked orders.now (length links.now.firsts.items) links.now.firsts.items links.now.nexts.items }
    requires account { account < length links.now.firsts.items }
    requires room { length orders.now ≤ vec_capacity own.old }
    ensures own { own.new.items ≡ own_costs (account + 1) orders.now view.now.clearing }
    ensures room { vec_capacity own.new ≡ vec_capacity own.old }
{
    own.clear();
    let mut first = links.firsts[account] as usize;
    while first > 0 {
        let place = orders.len() - first;
        own.push_reserved(fill_cost(&orders[place], rate_at(view, place), prices));
        first = links.nexts[first - 1] as usize;
    }
}

impl Desks {
    /// Appends what accounts are told of a batch that cleared, by ascending numbers of the accounts: each with live orders in it is told what each of them
    /// traded, also nothing, and what that cost in grains, by ascending numbers of the orders. `orders` are the live orders before the batch is
    /// settled, for which the clearing has one rate each.
    ///
    /// The cost is one pass over the orders, one over the accounts, and the texts. Takes memory for both while it works.
    #[tactic(auto, using(flow_orders::proofs::Limits::orders_fit))]
    pub fn tell_fills(
        &mut self,
        alloc: Global,
        orders: &[Order],
        view: &ClearedView<'_>,
        out: &mut Text,
    ) -> Result<(), Memory>
        requires fits { FitsBook (length self.old.accounts) orders.now view.now.clearing }
        requires few { self.old.total.messages + length self.old.accounts < 2 ^ 64 }
        ensures before { out.new.before ≡ out.old.before }
        ensures told { OnOk result (Tells self.old self.new out.old.text out.new.text
            (fill_messages (length self.old.accounts) orders.now view.now.batch view.now.clearing)) }
    {
        let accounts = self.accounts();
        let prices = view.to_prices(alloc)?;
        let links = links_of(alloc, orders, accounts)?;
        let mut own = Vec::with_capacity(alloc, orders.len())?;
        for account in 0..accounts {
            collect(&links, account, orders, view, &prices, &mut own);
            self.tell_fills_of(account, view.batch(), &own, out)?;
        }
        Ok(())
    }

    // Appends what an account is told whose orders traded so, if it has any.
    fn tell_fills_of(
        &mut self,
        account: usize,
        batch: u32,
        own: &[FillCost],
        out: &mut Text,
    ) -> Result<(), Memory>
        requires there { account < length self.old.accounts }
        requires small { account + 1 < 2 ^ 32 }
        requires few { self.old.total.messages + 1 < 2 ^ 64 }
        ensures before { out.new.before ≡ out.old.before }
        ensures told { OnOk result (Tells self.old self.new out.old.text out.new.text (fill_message batch (account + 1) own.now)) }
    {
        if own.is_empty() {
            return Ok(());
        }
        self.address(Recipient::Desk(account as u32 + 1), None, None, out)?;
        put_fills(batch, own, out)?;
        put_end(out)
    }
}
