//! How many bytes a checkpoint has, judged by its first bytes.
ghost use Rattle.std.specs.Prelude.{◌≡◌, ◌+◌, ◌*◌, ◌≤◌, ℕ, List, ◌++◌, length, IfSome, IfNone};
ghost use Rattle.flow_orders.specs.Orders.{most_orders};
ghost use Rattle.market_snapshot.specs.Checkpoints.{BeginsWithNoCheckpoint};
ghost use Rattle.market_snapshot.specs.Sizes.{HasSize, OrdersEndAt};

use crate::layout::{ENTRY, NUMBER, ORDER, account_size};
use byte_places::{u8_at, u16_at, u32_at};
use flow_accounts::{MOST_ACCOUNTS, MOST_ASSETS};
use market_rules::MOST_ORDERS;

// The first bytes, which say how many assets there are.
const FIRST: usize = 11;

// Returns where `count` orders end that begin at a place, or the least place where they can end if some are incomplete.
#[tactic(auto, using(flow_orders::proofs::Limits::orders_fit))]
fn orders_end(bytes: &[u8], first: usize, count: usize) -> usize
    requires inside { first ≤ length bytes.now }
    requires few { count ≤ most_orders }
    ensures { OrdersEndAt bytes.now first count result }
{
    let mut end = first;
    let mut passed = 0;
    while passed < count {
        let there = bytes.len() - end;
        if there < ORDER {
            return end + ORDER * (count - passed);
        }
        let size = ORDER + ENTRY * usize::from(u8_at(bytes, end + 52));
        if there < size {
            return end + size + ORDER * (count - passed - 1);
        }
        end += size;
        passed += 1;
    }
    end
}

/// Returns how many bytes a checkpoint that begins with these has: at least as many as it says, and exactly as many once `bytes` has that
/// many. `None` if a count that the bytes state is above that of any consistent market, so that no checkpoint begins with them.
///
/// To read a checkpoint from a source, read until as many bytes are there as this says: then the checkpoint has been read to its end, and
/// nothing after it. Costs one pass over the orders in `bytes`.
#[tactic(auto, using(flow_orders::proofs::Limits::orders_are))]
pub fn checkpoint_size(bytes: &[u8]) -> Option<usize>
    ensures size { IfSome result (HasSize bytes.now) }
    ensures none { IfNone result ((more : List ℕ) → BeginsWithNoCheckpoint (bytes.now ++ more)) }
{
    if bytes.len() < FIRST {
        return Some(FIRST);
    }
    let assets = u16_at(bytes, 9);
    if assets > MOST_ASSETS {
        return None;
    }
    let count = FIRST + NUMBER * usize::from(assets);
    if bytes.len() < count + 4 {
        return Some(count + 4);
    }
    let accounts = u32_at(bytes, count);
    if accounts > MOST_ACCOUNTS {
        return None;
    }
    let place = count
        + 4
        + account_size(assets) * accounts as usize
        + 44
        + 24 * usize::from(assets);
    if bytes.len() < place + 4 {
        return Some(place + 4);
    }
    let orders = u32_at(bytes, place);
    if orders > MOST_ORDERS {
        return None;
    }
    Some(orders_end(bytes, place + 4, orders as usize))
}
