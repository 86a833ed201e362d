//! Laws of valid entries, of journals and of findings. Each law is the contract of a function that does nothing.
ghost use Rattle.batch_audit.specs.Laws.{OneMarket, OneJudgement, PairsNumberOne, OneFinding, EachHasAFinding, FindingsTellLegality};

/// A valid entry makes one market.
pub fn one_market()
    ensures { OneMarket }
{}

/// A list of entries has one judgement: which are valid, which follow them, and what market the valid ones make.
pub fn one_judgement()
    ensures { OneJudgement }
{}

/// A valid entry gives out at most one number of an order.
pub fn pairs_number_one()
    ensures { PairsNumberOne }
{}

/// There is at most one finding on an entry.
pub fn one_finding()
    ensures { OneFinding }
{}

/// There is a finding on each entry, in a consistent market: it can't be that there is none.
pub fn each_has_a_finding()
    ensures { EachHasAFinding }
{}

/// The finding on an entry is `Legal` exactly if the entry is a step of the market, and with any other finding it is
/// none.
pub fn findings_tell_legality()
    ensures { FindingsTellLegality }
{}
