//! What holds of the grammar of journals, whatever reads or writes it. Each law is the contract of a function that
//! does nothing.
ghost use Rattle.std.specs.Prelude.{◌≡◌};
ghost use Rattle.journal_records.specs.Replies.{most_reply_body};
ghost use Rattle.wire_records.specs.declared.version.Version.TheVariants.{One};
ghost use Rattle.journal_records.specs.Formats.{journal_magic_of};
ghost use Rattle.journal_records.specs.Laws.{OneAnswer, OnePair, PairFits, ClearedPairFits, SkippedPairFits, PlainRepliesFit, BatchRepliesFit, AdmissibleOutcomesFit, OneJournalFile, JournalIsFile, JournalIsRead, OneJournal};

use crate::{JOURNAL_MAGIC, MOST_REPLY_BODY};

/// A record encodes at most one answer.
pub fn one_answer()
    ensures { OneAnswer }
{}

/// No entry's encoding is a proper prefix of another's, so what was written is read back, whatever
/// follows it.
pub fn one_pair()
    ensures { OnePair }
{}

/// An entry with a plain reply takes at most the space that `reserve_plain` reserves for its command record.
pub fn pair_fits()
    ensures { PairFits }
{}

/// An entry with a batch that cleared takes exactly the space that [`write_cleared`](crate::write_cleared) reserves for it.
pub fn cleared_pair_fits()
    ensures { ClearedPairFits }
{}

/// An entry with a batch that was skipped takes exactly the space that [`write_skipped`](crate::write_skipped) reserves for
/// it.
pub fn skipped_pair_fits()
    ensures { SkippedPairFits }
{}

/// The record of a plain reply is within the limit of 262,144 bytes in its body.
pub fn plain_replies_fit()
    ensures { PlainRepliesFit }
{}

/// The record of a batch of at most 64 assets and 16,384 orders, or of at most 65,536 moves, is within the
/// limit of 262,144 bytes in its body.
pub fn batch_replies_fit()
    ensures { BatchRepliesFit }
{}

/// The numbers of an admissible outcome of at most 16,384 orders within their limits over at most 64 assets fit their widths,
/// whoever publishes it.
pub fn admissible_outcomes_fit()
    ensures { AdmissibleOutcomesFit }
{}

/// Bytes have exactly one reading as a journal: one version, list of entries and ending, or no journal.
pub fn one_journal_file()
    ensures { OneJournalFile }
{}

/// A journal is the file of its entries' records, in each version, so what was written is what is read.
pub fn journal_is_file()
    ensures { JournalIsFile }
{}

/// Journals that are the same bytes are of one version and have the same entries.
pub fn one_journal()
    ensures { OneJournal }
{}

/// A journal within the limit is read as the records of its entries, in its version and to its end.
pub fn journal_is_read()
    ensures { JournalIsRead }
{}

/// The magic and the limit that the code names are those of the definitions.
pub fn constant_is_named()
    ensures magic { JOURNAL_MAGIC ≡ journal_magic_of One }
    ensures most_reply_body { MOST_REPLY_BODY ≡ most_reply_body }
{}
