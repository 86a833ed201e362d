//! What holds of settlement, whatever code there is. Each law is the contract of a function that does nothing.
ghost use Rattle.fill_caps.specs.Laws.{SettledBalancesSettle, SettlementIsDetermined};

/// The settled balances and the settled exchange settle all trades.
pub fn settled_balances_settle()
    ensures { SettledBalancesSettle }
{}

/// Only one state of the accounts settles given trades.
pub fn settlement_is_determined()
    ensures { SettlementIsDetermined }
{}
