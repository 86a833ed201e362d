//! Laws of audits and replays. Each law is the contract of a function that does nothing.
ghost use Rattle.journal_replay.specs.Laws.{AuditsToEndAreOfLegalJournals, OneAudit, MarketsAreOfLegalJournals, OneReplay};

/// An audit that finds no entry invalid and reaches the end is that of the encoding of a valid journal of some version,
/// with nothing past the limit; and each such encoding is audited so.
pub fn audits_to_end_are_of_legal_journals()
    ensures { AuditsToEndAreOfLegalJournals }
{}

/// Bytes have one audit: one list of valid entries, one rest after them, one ending and one market.
pub fn one_audit()
    ensures { OneAudit }
{}

/// A replay returns a market exactly for the encodings of valid journals of any version, unless memory runs out, and it
/// is the market of that journal.
pub fn markets_are_of_legal_journals()
    ensures { MarketsAreOfLegalJournals }
{}

/// Unless memory runs out, a replay of the same bytes has one result.
pub fn one_replay()
    ensures { OneReplay }
{}
