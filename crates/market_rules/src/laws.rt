//! What holds of steps, journals and markets, whatever code there is. Each law is the contract of a function that
//! does nothing.
ghost use Rattle.market_rules.specs.Laws.{MarketIsDetermined, JournalsDetermineTheMarket, OneRefusal, PlainCommandsHaveOneAnswer, PlainCommandsHoldNoBatch};
ghost use Rattle.market_rules.specs.Laws.{StepsKeepConsistency, HeldIsDeposited, BatchesKeepTotals, SkipsOnlyEndOrders, OrdersEndInTime, VersionOneIsAsBefore, BatchesOfVersionOne, OrdersMayLeave, FillsKeepCaps};
ghost use Rattle.market_rules.specs.Laws.{ClearedBatchesAreOptimal, SkipsLowerTheDual, LargeBudgetsClear, SequencesCompose, LimitsAgree, JournalsStayConsistent, JournalsHoldDeposits, LegalStepsNumberOne, LegalJournalsKeepPromises};

/// The old market, the record and the answer determine the new market.
pub fn market_is_determined()
    ensures { MarketIsDetermined }
{}

/// A valid journal determines the market after it.
pub fn journals_determine_the_market()
    ensures { JournalsDetermineTheMarket }
{}

/// A command that is refused has no other answer, and changes nothing.
pub fn one_refusal()
    ensures { OneRefusal }
{}

/// A command that is no batch has one answer, even if any admissible outcome of a batch is accepted.
pub fn plain_commands_have_one_answer()
    ensures { PlainCommandsHaveOneAnswer }
{}

/// What is served without a batch is served alike if any admissible outcome of a batch is accepted, and a command that is
/// no batch is served in no other way.
pub fn plain_commands_hold_no_batch()
    ensures { PlainCommandsHoldNoBatch }
{}

/// The empty market is consistent, and every step keeps a market consistent.
pub fn steps_keep_consistency()
    ensures { StepsKeepConsistency }
{}

/// What accounts and exchange hold is what was deposited less what was withdrawn.
pub fn held_is_deposited()
    ensures { HeldIsDeposited }
{}

/// Steps from a consistent market lead to a consistent one.
pub fn journals_stay_consistent()
    ensures { JournalsStayConsistent }
{}

/// Steps from a consistent market lead to one that holds more by the accepted deposits less the accepted withdrawals. In it each
/// account covers, with its credit, what its live orders reserve, and accounts and exchange together hold the totals.
pub fn journals_hold_deposits()
    ensures { JournalsHoldDeposits }
{}

/// A batch changes nothing that is held in total.
pub fn batches_keep_totals()
    ensures { BatchesKeepTotals }
{}

/// A skipped batch is counted, the orders whose last batch it was leave, and nothing else changes.
pub fn skips_only_end_orders()
    ensures { SkipsOnlyEndOrders }
{}

/// The batch of an order's last number is the last in which it trades, and the order leaves with it, whether the batch
/// cleared or was skipped.
pub fn orders_end_in_time()
    ensures { OrdersEndInTime }
{}

/// In a consistent market of version One no order has a last batch and no account has credit.
pub fn version_one_is_as_before()
    ensures { VersionOneIsAsBefore }
{}

/// A batch of version One ends only orders that are filled to their caps.
pub fn batches_of_version_one()
    ensures { BatchesOfVersionOne }
{}

/// Accounts that cover what orders need still cover what the remaining ones need, whichever orders leave.
pub fn orders_may_leave()
    ensures { OrdersMayLeave }
{}

/// No order's fills in a journal pass its cap.
pub fn fills_keep_caps()
    ensures { FillsKeepCaps }
{}

/// No balanced rates have more welfare than those of a cleared batch and its gap together.
pub fn cleared_batches_are_optimal()
    ensures { ClearedBatchesAreOptimal }
{}

/// The published dual value falls in a skipped batch by more than its movement less the number of orders, and by more than
/// a grain for each move less the number of orders.
pub fn skips_lower_the_dual()
    ensures { SkipsLowerTheDual }
{}

/// A batch clears if its budget is above the dual value at its start prices plus the number of orders.
pub fn large_budgets_clear()
    ensures { LargeBudgetsClear }
{}

/// Sequences of steps compose, and a sequence splits at any entry.
pub fn sequences_compose()
    ensures { SequencesCompose }
{}

/// Limits that two crates define, each under its own name, agree.
pub fn limits_agree()
    ensures { LimitsAgree }
{}

/// A step gives out at most one order number, whatever admissible outcome its batch has.
pub fn legal_steps_number_one()
    ensures { LegalStepsNumberOne }
{}

/// Steps from a consistent market, and so every valid journal, keep the promises of the exchange, whoever wrote them and
/// whatever admissible outcomes their batches have.
pub fn legal_journals_keep_promises()
    ensures { LegalJournalsKeepPromises }
{}
