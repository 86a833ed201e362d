//! The orders of a batch, account by account.
ghost use Rattle.std.specs.Prelude.{◌<◌, ◌^◌, length, IfOk};
ghost use Rattle.desk_messages.specs.Private.{AreLinked};
ghost use Rattle.desk_messages.specs.Batches.{AreOfAccounts};

use flow_orders::Order;
use std::alloc::Global;
use wire_records::Memory;

// The orders of each account, from one to its next, by how many orders follow in the book. An order that none follows in the book has number 1 here, and 0 is
// no order. `firsts` has the first order of each account, by the accounts' numbers from 1, and `nexts` the next order of the same account.
#[derive(Drop)]
pub(crate) struct Links {
    pub(crate) firsts: Vec<u32>,
    pub(crate) nexts: Vec<u32>,
}

// Links the orders of each account. One pass over the orders, from the last.
pub(crate) fn links_of(alloc: Global, orders: &[Order], accounts: usize) -> Result<Links, Memory>
    requires few { length orders.now < 2 ^ 32 }
    requires there { AreOfAccounts accounts orders.now }
    ensures { IfOk result (λ links. AreLinked orders.now accounts links.firsts.items links.nexts.items) }
{
    let mut firsts = vec![in alloc; 0; accounts]?;
    let mut nexts = Vec::with_capacity(alloc, orders.len())?;
    for follow in 0..orders.len() {
        let account = orders[orders.len() - 1 - follow].account() as usize - 1;
        nexts.push_reserved(firsts[account]);
        firsts[account] = follow as u32 + 1;
    }
    Ok(Links { firsts, nexts })
}
