//! What a valid entry changes in a market.
ghost use Rattle.std.specs.Prelude.{◌≡◌, ℕ, Ok, Result, IfSome, IfNone};
ghost use Rattle.wire_records.specs.Commands.{Command, RunBatch};
ghost use Rattle.wire_records.specs.Views.{command_of};
ghost use Rattle.wire_records.specs.declared.command.BodyFault.{BodyFault};
ghost use Rattle.market_rules.specs.Market.{Market};
ghost use Rattle.batch_audit.specs.Judging.{Changes};

use batch_outcome::Outcome;
use wire_records::CommandView;

/// What a valid entry changes in the market that it was judged over, before the change is made.
#[derive(Drop)]
pub enum Change<'a> {
    /// Nothing: the record is no command.
    Nothing,
    /// Nothing: this command, the entry's, is refused.
    Refused(CommandView<'a>),
    /// What this command, the entry's, changes. No refusal stops it, and it holds no batch.
    Command(CommandView<'a>),
    /// What settling a batch with this outcome changes.
    Batch(Outcome),
}

impl<'a> Change<'a> {
    /// Returns the command of the entry, so that its record needn't be read again: `None` if the record is no command, and if a batch was
    /// held. Constant cost.
    pub fn command(&self) -> Option<&CommandView<'a>>
        ensures some { IfSome result (λ command. (old : Market) (read : Result Command BodyFault) (new : Market)
            → Changes old read self.now new → read ≡ Ok (command_of command.now)) }
        ensures none { IfNone result ((old : Market) (read : Result Command BodyFault) (new : Market)
            → Changes old read self.now new → (command : Command) → read ≡ Ok command
            → (budget : ℕ) × (command ≡ RunBatch budget)) }
    {
        match self {
            Change::Nothing => None,
            Change::Refused(command) => Some(command),
            Change::Command(command) => Some(command),
            Change::Batch(_) => None,
        }
    }
}
