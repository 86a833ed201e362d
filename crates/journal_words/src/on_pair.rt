//! What is done with the entries of a journal.
ghost use Rattle.std.specs.Prelude.{◌≡◌, ◌≤◌, ◌<◌, ◌+◌, ◌^◌, ℕ, [], Some, IfOk, OnOk, OnErr, vec_len, vec_capacity};
ghost use Rattle.journal_records.specs.Views.{answer_of};
ghost use Rattle.journal_records.specs.Replies.{EncodesAnswer};
ghost use Rattle.market_rules.specs.Market.{Market};
ghost use Rattle.batch_audit.specs.Legal.{IsIllegalPair};
ghost use Rattle.batch_audit.specs.Judging.{IsChangeOf};
ghost use Rattle.journal_words.specs.Watching.{Watch, Illegal, SeesOne, AllocatesOne};
ghost use Rattle.journal_words.specs.Private.{IsClosedBy};

use batch_audit::{Audit, Change};
use journal_records::{PairView, ReplyView};
use word_driver::{Halt, Memory};

/// What is done with each valid entry of a journal, with the first invalid one, and at the end. The text is put into a
/// buffer that is empty before. `pairs` is how many valid entries precede.
pub trait OnPair {
    /// Why it stops at an invalid entry or at the end.
    type Stop: Copy;

    /// How many bytes the buffer has room for without a further allocation.
    const ROOM: usize;

    ghost ROOM: { ℕ };

    ghost Seen: { Type 0 };
    // What is seen of the entries, and written.
    ghost watch: { Watch Seen Self.Stop };

    // What was seen, when this is the market.
    ghost seen: { Self → Market → Seen };
    // Its own invariant, after this many entries, which made this market.
    ghost is_within: { Self → Market → ℕ → Type 0 };

    // The invariant is a proposition, so that a struct may hold it.
    ghost within_is_prop: { (state : Self) (market : Market) (pairs : ℕ) → IsProp (is_within state market pairs) };

    /// Takes an entry that the audit has just judged valid: makes its change in the audit, and puts its text into the buffer. `reply` is
    /// the answer that its second record encodes, and the change has its command, so no record needs to be read again.
    fn legal(
        &mut self,
        audit: &mut Audit,
        pair: &PairView<'_>,
        reply: &ReplyView<'_>,
        change: Change<'_>,
        pairs: u64,
        text: &mut Vec<u8>,
    ) -> Result<(), Memory>
        requires replied { EncodesAnswer pair.now.1 (answer_of reply.now) }
        requires change { IsChangeOf audit.old pair.now change }
        requires next { audit.old.next_order + 2 < 2 ^ 64 }
        requires within { is_within self.old audit.old pairs }
        requires few { pairs + 1 < 2 ^ 64 }
        requires empty { text.old.items ≡ [] }
        requires none { vec_len text.old ≡ 0 }
        requires room { ROOM ≤ vec_capacity text.old }
        ensures room { vec_capacity text.old ≤ vec_capacity text.new }
        ensures seen { OnOk result
            (SeesOne watch (record { market = audit.old; pairs = pairs; seen = seen self.old audit.old }) pair.now
            (record { market = audit.new; pairs = pairs + 1; seen = seen self.new audit.new }) text.new.items) }
        ensures within { OnOk result (is_within self.new audit.new (pairs + 1)) }
        ensures stays { OnErr result (is_within self.new audit.new pairs) }
        ensures next { OnErr result (audit.new.next_order ≤ audit.old.next_order + 1) }
        ensures wanted { OnErr result
            (AllocatesOne watch (record { market = audit.old; pairs = pairs; seen = seen self.old audit.old }) (Some pair.now)) };

    /// Takes the first invalid entry, and returns why the subcommand stops there. The audit is unchanged.
    fn illegal(
        &self,
        audit: &mut Audit,
        pair: &PairView<'_>,
        pairs: u64,
        text: &mut Vec<u8>,
    ) -> Result<Self::Stop, Memory>
        requires illegal { IsIllegalPair audit.old pair.now }
        requires next { audit.old.next_order + 1 < 2 ^ 64 }
        requires few { pairs + 1 < 2 ^ 64 }
        requires empty { text.old.items ≡ [] }
        requires none { vec_len text.old ≡ 0 }
        requires room { ROOM ≤ vec_capacity text.old }
        ensures stays { audit.new ≡ audit.old }
        ensures room { vec_capacity text.old ≤ vec_capacity text.new }
        ensures rejects { IfOk result
            (λ why. watch.Rejects audit.old pairs pair.now (seen self.now audit.old) why text.new.items) }
        ensures wanted { OnErr result (watch.Allocates audit.old pairs (Illegal pair.now) (seen self.now audit.old)) };

    /// Takes the end of the journal. The audit is unchanged.
    fn end(&self, audit: &mut Audit, pairs: u64, text: &mut Vec<u8>) -> Result<(), Halt<Self::Stop>>
        requires within { is_within self.now audit.old pairs }
        requires empty { text.old.items ≡ [] }
        requires none { vec_len text.old ≡ 0 }
        requires room { ROOM ≤ vec_capacity text.old }
        ensures stays { audit.new ≡ audit.old }
        ensures room { vec_capacity text.old ≤ vec_capacity text.new }
        ensures closed { IsClosedBy watch audit.old pairs (seen self.now audit.old) result text.new.items };
}
