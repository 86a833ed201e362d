//! What holds of answers, read as lines.
//!
//! Each law is the contract of a function that does nothing. No code depends on them.
#![tactic(auto)]

ghost use Rattle.flow_orders.specs.Outcomes.{IsAdmissibleOutcome};
ghost use Rattle.answer_laws.specs.Laws.{TheEchoIsTheCommand, TheEchoInTheMarket};

/// The echo is the command: the members of a command in the answer to its sender, read as a line, ask for just this command. They are
/// written with the tickers after the command, and are read so with the tickers before it and with those after it.
pub fn the_echo_is_the_command()
    ensures { TheEchoIsTheCommand }
{}

/// In a market: when the commands that a line asks for are served, one after the other, the members of each in its answer ask for just
/// this command, in the market before it and in the market after it.
pub fn the_echo_in_the_market()
    ensures { TheEchoInTheMarket IsAdmissibleOutcome }
{}
