//! What a sender may ask for.
ghost use Rattle.std.specs.Prelude.{◌≡◌, ◌↔◌, map, IsTrue, All};
ghost use Rattle.wire_records.specs.Views.{command_in};
ghost use Rattle.desk_lines.specs.Rights.{owner_of, MayAsk, MayKnow};

use answer_text::Recipient;
use order_text::Question;
use wire_records::Command;

// Returns the account that may ask for a command, beside the operator.
fn owner_of(command: &Command) -> Option<u32>
    ensures { result ≡ owner_of (command_in command.now) }
{
    match *command {
        Command::AddAsset { .. } => None,
        Command::OpenAccount => None,
        Command::DepositMoney { .. } => None,
        Command::DepositAsset { .. } => None,
        Command::WithdrawMoney { .. } => None,
        Command::WithdrawAsset { .. } => None,
        Command::PlaceOrder { account, .. } => Some(account),
        Command::PlaceUntil { account, .. } => Some(account),
        Command::CancelOrder { account, .. } => Some(account),
        Command::RunBatch { .. } => None,
        Command::SetMoneyCredit { .. } => None,
        Command::SetUnitCredit { .. } => None,
    }
}

// Returns whether a sender may ask for a command.
pub(crate) fn may_ask(sender: Recipient, command: &Command) -> bool
    ensures { IsTrue result ↔ MayAsk sender (command_in command.now) }
{
    match sender {
        Recipient::Operator => true,
        Recipient::Desk(account) => match owner_of(command) {
            Some(owner) => owner == account,
            None => false,
        },
        Recipient::All => false,
    }
}

// Returns whether a sender may ask for all of these commands.
pub(crate) fn may_ask_all(sender: Recipient, commands: &[Command]) -> bool
    ensures { IsTrue result ↔ All (MayAsk sender) (map command_in commands.now) }
{
    for command in commands {
        if !may_ask(sender, command) {
            return false;
        }
    }
    true
}

// Returns whether a sender may know the answer to a question.
pub(crate) fn may_know(sender: Recipient, question: Question) -> bool
    ensures { IsTrue result ↔ MayKnow sender question }
{
    match sender {
        Recipient::Operator => question != Question::Own,
        Recipient::Desk(_) => question == Question::Market || question == Question::Own,
        Recipient::All => false,
    }
}
