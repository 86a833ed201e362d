//! What holds of steps and journals by the canonical rule. Each law is the contract of a function that does nothing.
ghost use Rattle.canonical_journals.specs.Laws.{PlainCommandsNeedNoRule, EveryCommandIsServed, OneCanonicalJournal, CanonicalJournalsAreLegal, StepsNumberOne, CanonicalJournalsClearNear};

/// A command that is no batch is served by the canonical rule exactly as if any admissible outcome of a batch is
/// accepted.
pub fn plain_commands_need_no_rule()
    ensures { PlainCommandsNeedNoRule }
{}

/// Every command has a step by the canonical rule, from any market.
pub fn every_command_is_served()
    ensures { EveryCommandIsServed }
{}

/// Records whose bodies are bytes have exactly one journal by the canonical rule.
pub fn one_canonical_journal()
    ensures { OneCanonicalJournal }
{}

/// A journal by the canonical rule is valid.
pub fn canonical_journals_are_legal()
    ensures { CanonicalJournalsAreLegal }
{}

/// A step by the canonical rule gives out at most one order number.
pub fn steps_number_one()
    ensures { StepsNumberOne }
{}

/// In steps by the canonical rule from a consistent market, each batch of orders with one leg clears, at prices within 2^60
/// grains, and an asset that was settled keeps its price.
pub fn canonical_journals_clear_near()
    ensures { CanonicalJournalsClearNear }
{}
