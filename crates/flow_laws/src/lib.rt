//! Laws between the program's subcommands and of their outcomes, whatever code there is.
//!
//! Each law is the contract of a function that does nothing. No code depends on them, so they come after the program, which
//! is built without them.
#![tactic(auto)]

ghost use Rattle.flow_laws.specs.Laws.{DoneIsForHistories, DoneForLegalJournals, RejectedIsFirstIllegal, FirstIllegalOfJournals, BadIsUnsound, TornAtMagics, ExplainIsAudit, RejectedIsExplained, EncodedIsRead, EncodedIsServed, EncodedIsResumed, BadBeforeLines, RunsAreAudited, NoneIsWithoutEnd, SamplesAreRun, BegunIsAPrefix, TickersAgree, SessionsGoOn, StatementsOfHistories, StatementsOfLegalJournals, OneViewOneStatement, StatementsGoOn, CheckpointsOfHistories, HistoriesHaveCheckpoints, HistoriesGoOn, LegalJournalsHaveCheckpoints, CommandFilesBeginNoPair, ResumptionsEnd, ResumptionsKeepPromises, ResumptionsGoOn, GoOnAlike};
ghost use Rattle.flow_laws.specs.Days.{DaysAreOneHistory};

/// `audit` is done exactly for a history whose entries are all valid, with nothing past the limit, whoever wrote it, and the line that it
/// writes counts the history's entries, and the batches that cleared and that were skipped.
pub fn done_is_for_histories()
    ensures { DoneIsForHistories }
{}

/// A valid journal is such a history, so `audit` of it is done. Of an input that doesn't begin as a checkpoint it is done for nothing else.
pub fn done_for_legal_journals()
    ensures { DoneForLegalJournals }
{}

/// `audit` rejects an entry exactly if it is the first invalid one, with its number, counted from 1 in each history.
pub fn rejected_is_first_illegal()
    ensures { RejectedIsFirstIllegal }
{}

/// Of an input that doesn't begin as a checkpoint, that is the first invalid entry of a journal.
pub fn first_illegal_of_journals()
    ensures { FirstIllegalOfJournals }
{}

/// `audit`, `explain`, `report` and `checkpoint` end with `BadCheckpoint` exactly if the input begins as a checkpoint, and with none of a
/// consistent market within the limit, and with `NotFlow` exactly if it begins neither as a journal nor as a checkpoint. Then they write
/// nothing.
pub fn bad_is_unsound()
    ensures { BadIsUnsound }
{}

/// A magic after the entries of a history is no entry, be it that of a journal, of a command file or of a checkpoint: `audit` ends there with
/// `Torn`, at its place in the whole input.
pub fn torn_at_magics()
    ensures { TornAtMagics }
{}

/// `explain` results in the status of `audit`, and writes the same unless it rejects an entry.
pub fn explain_is_audit()
    ensures { ExplainIsAudit }
{}

/// `explain` rejects an entry exactly if it is the first invalid one, and writes the line of what is found of it in the
/// market that the entries before it lead to.
pub fn rejected_is_explained()
    ensures { RejectedIsExplained }
{}

/// What `encode` makes of lines, up to the first that is no command, is a command file. The file is read to its end as the records
/// of the commands that the lines ask for, and each of these records as its command.
pub fn encoded_is_read()
    ensures { EncodedIsRead }
{}

/// `run` of what `encode` makes of lines is done, and writes the journal that holds each command of the lines with its one
/// reply.
pub fn encoded_is_served()
    ensures { EncodedIsServed }
{}

/// If the lines are after a checkpoint, `resume` of what `encode` makes of them is done after this checkpoint, and writes the entry of
/// each command of the lines, from the checkpoint's market on.
pub fn encoded_is_resumed()
    ensures { EncodedIsResumed }
{}

/// `encode` ends with `BadCheckpoint` exactly if the input begins as a checkpoint, and within the limit with one of no consistent market
/// of the version; then it writes nothing.
pub fn bad_before_lines()
    ensures { BadBeforeLines }
{}

/// What `run` writes of a command file is a valid journal: `audit` of it is done, if it is within the limit of the audit, which is
/// below 2^64. What the output holds after a read fault, or after memory ran out, is a valid journal too, unless it is empty. Its entries keep
/// the promises of the exchange.
pub fn runs_are_audited()
    ensures { RunsAreAudited }
{}

/// A session over the market of a replay resumes from the replayed journal: the entries replayed and those served after them are one
/// valid journal, which is replayed to the session's market and audited to its end. If the replayed entries are what `run` wrote of some
/// records, all entries are what `run` writes of these records and those served after them, byte for byte.
pub fn sessions_go_on()
    ensures { SessionsGoOn }
{}

/// The tickers by which lines name assets are those of the market that `run` of their command file leads to, or if they are after a
/// checkpoint, `resume` of the checkpoint and that file.
pub fn tickers_agree()
    ensures { TickersAgree }
{}

/// The line of `sample` is that of the journal which `run` of the sample's file writes, and `audit` of that journal is done: it
/// counts the same batches.
pub fn samples_are_run()
    ensures { SamplesAreRun }
{}

/// `statement` is done exactly for a history whose entries are all valid, with nothing past the limit, in whose market at the end the account
/// is there: it writes the lines that are carried forward from the market in which the history begins, and the statement of what the account
/// sees from there on. It ends with `NoAccount` exactly for such a history in whose market at the end the account isn't there, and writes
/// nothing.
pub fn statements_of_histories()
    ensures { StatementsOfHistories }
{}

/// Of a valid journal `statement` writes the statement of what the account sees of it, and nothing is carried forward. For bytes that don't
/// begin as a checkpoint it is done for nothing else.
pub fn statements_of_legal_journals()
    ensures { StatementsOfLegalJournals }
{}

/// `statement` results in the same status and text for two histories of which the account sees the same, from markets on in which it has the
/// same, whatever else is in them; so it does for two valid journals of which the account sees the same.
pub fn one_view_one_statement()
    ensures { OneViewOneStatement }
{}

/// The statements of a history that is cut in two continue each other: the last lines of the first are the first of the second, and put
/// together they say what the statement of the whole says.
pub fn statements_go_on()
    ensures { StatementsGoOn }
{}

/// No bytes are without a status and a text, under any form that arguments ask for.
pub fn none_is_without_end()
    ensures { NoneIsWithoutEnd }
{}

/// What some first bytes result in if more follow, and so the output after a fault or after memory ran out, is a prefix of the
/// text that the bytes determine.
pub fn begun_is_a_prefix()
    ensures { BegunIsAPrefix }
{}

/// `checkpoint` is done exactly for a history whose entries are all valid, with nothing past the limit, and writes the bytes of the market at
/// its end. It results in the status of `audit`, and writes nothing unless it is done.
pub fn checkpoints_of_histories()
    ensures { CheckpointsOfHistories }
{}

/// The market at the end of each history has a checkpoint, which is what `checkpoint` writes, while the number of the next order where the
/// history begins and the history's entries are together fewer than 2^63.
pub fn histories_have_checkpoints()
    ensures { HistoriesHaveCheckpoints }
{}

/// A checkpoint replaces the history that it was written for: from it on, the same entries are valid, and they lead to the same market. With
/// the same bytes after both, `checkpoint` is done for both or for neither, and writes the same.
pub fn histories_go_on()
    ensures { HistoriesGoOn }
{}

/// The days of a market, of which each is checked alone from the checkpoint of the day before, are together one history whose entries are all
/// valid, however long it is: what is promised of the totals, of each batch and of the caps of orders holds across all of them. It is stated
/// for days of fewer than 2^63 bytes together.
pub fn days_are_one_history()
    ensures { DaysAreOneHistory }
{}

/// The market of each valid journal whose length is below 2^64 has a checkpoint, which is what `checkpoint` writes.
pub fn legal_journals_have_checkpoints()
    ensures { LegalJournalsHaveCheckpoints }
{}

/// No entry begins as a command file does, so a journal ends where a command file follows it.
pub fn command_files_begin_no_pair()
    ensures { CommandFilesBeginNoPair }
{}

/// `resume` is done exactly if the input is a valid journal or a checkpoint, followed by nothing or by a complete command file of the same
/// version, with nothing past the limit; it writes the entries of all records of the file. It rejects an entry exactly if it is the first
/// invalid one. It ends with `BadCheckpoint` exactly if the input is within the limit and begins with the magic of a checkpoint, but with
/// no checkpoint, and with `NotFlow` exactly if it begins with the magic of neither a journal nor a checkpoint.
pub fn resumptions_end()
    ensures { ResumptionsEnd }
{}

/// After any valid journal and any checkpoint, `resume` writes entries that answer the new records from their market on, with the promises
/// of the exchange, those on the orders of that market too. After each of these entries, what is held is what was held in that market, and
/// the accepted deposits less the accepted withdrawals of the entries so far, of money and of each asset.
pub fn resumptions_keep_promises()
    ensures { ResumptionsKeepPromises }
{}

/// What `resume` writes after a valid journal, or after a checkpoint of the journal's market, is with the journal one valid journal, of
/// the old records and then of the new ones, whoever wrote its beginning. If the journal is what `run` wrote, all of it is what `run`
/// writes of all records, byte for byte. The output after a read fault, or after memory ran out, joins the journal too.
pub fn resumptions_go_on()
    ensures { ResumptionsGoOn }
{}

/// `resume` writes the same after a valid journal and after a checkpoint of its market, if the same bytes follow them; and it ends alike, if
/// nothing is past the limits. The checkpoint may be what `checkpoint` writes of the journal.
pub fn go_on_alike()
    ensures { GoOnAlike }
{}
