//! The status of how a subcommand ended, with those of its own reasons to stop.
ghost use Rattle.std.specs.Prelude.{◌≡◌};
ghost use Rattle.flow_exchange.specs.Statuses.{ended_status, unencoded, unfit_status};
ghost use Rattle.flow_exchange.specs.Private.{no_reason, no_statement, rejected};

use encode_word::EncodeStop;
use exit_status::Status;
use history_words::HistoryStop;
use session_resume::Unfit;
use statement_word::NoStatement;
use word_driver::{Fault, Never};

// The status of an ending: the rows that all subcommands have, and those of a subcommand's own reasons to stop.
macro_rules! status_of {
    ($ended:expr, $limit:expr, $($why:pat => $status:expr),+) => {
        match $ended {
            Ok(()) => Status::Done,
            Err(Fault::Read) => Status::ReadFault,
            Err(Fault::Write) => Status::WriteFault,
            Err(Fault::Memory) => Status::NoMemory,
            Err(Fault::NotFlow) => Status::NotFlow,
            Err(Fault::Torn(place)) => Status::Torn(place),
            Err(Fault::TooLong) => Status::TooLong($limit),
            $(Err(Fault::Stopped($why)) => $status),+
        }
    };
}

// Returns the status of a subcommand that doesn't stop by itself.
pub(crate) fn plain_status(ended: Result<(), Fault<Never>>, limit: u64) -> Status
    ensures { result ≡ ended_status limit no_reason ended }
{
    status_of!(ended, limit, never => match never {})
}

// Returns the status of a subcommand over a history. It stops at the first invalid entry, or at a bad checkpoint.
pub(crate) fn pairs_status(ended: Result<(), Fault<HistoryStop<u64>>>, limit: u64) -> Status
    ensures { result ≡ ended_status limit rejected ended }
{
    status_of!(ended, limit,
        HistoryStop::AtPairs(number) => Status::Rejected(number),
        HistoryStop::NoCheckpoint => Status::BadCheckpoint)
}

// Returns the status of a statement. It stops at the first invalid entry, if there is no account of its number, or if the input begins as
// a checkpoint but with none of a consistent market.
pub(crate) fn statement_status(
    ended: Result<(), Fault<HistoryStop<NoStatement>>>,
    limit: u64,
) -> Status
    ensures { result ≡ ended_status limit no_statement ended }
{
    status_of!(ended, limit,
        HistoryStop::NoCheckpoint => Status::BadCheckpoint,
        HistoryStop::AtPairs(NoStatement::Rejected(number)) => Status::Rejected(number),
        HistoryStop::AtPairs(NoStatement::NoAccount(number)) => Status::NoAccount(number))
}

// Returns the status of an encoding. It stops at the first line that is no command, or if there is no checkpoint of a consistent market of
// the version.
pub(crate) fn lines_status(ended: Result<(), Fault<EncodeStop>>, limit: u64) -> Status
    ensures { result ≡ ended_status limit unencoded ended }
{
    status_of!(ended, limit,
        EncodeStop::NoCommand(number) => Status::BadText(number),
        EncodeStop::NoCheckpoint => Status::BadCheckpoint)
}

// Returns the status of a resumption. It stops if there is nothing to resume from: at an invalid entry, or at a bad checkpoint.
pub(crate) fn resumed_status(ended: Result<(), Fault<Unfit>>, limit: u64) -> Status
    ensures { result ≡ ended_status limit unfit_status ended }
{
    status_of!(ended, limit,
        Unfit::Illegal(number) => Status::Rejected(number),
        Unfit::NoCheckpoint => Status::BadCheckpoint)
}
