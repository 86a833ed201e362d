//! How a statement takes an entry.
ghost use Rattle.std.specs.Prelude.{◌≡◌, [], ◌∷◌, ◌++◌, true, OnOk, OnErr};
ghost use Rattle.wire_records.specs.Commands.{Plain};
ghost use Rattle.wire_records.specs.Views.{command_of};
ghost use Rattle.journal_records.specs.Views.{answer_of};
ghost use Rattle.journal_records.specs.Replies.{EncodesAnswer};
ghost use Rattle.market_rules.specs.Market.{Market as market_value};
ghost use Rattle.batch_audit.specs.Legal.{IsLegalPair};
ghost use Rattle.batch_audit.specs.Judging.{IsChangeOf};
ghost use Rattle.statement_rules.specs.Views.{Clears, Skips, event_if};
ghost use Rattle.statement_rules.specs.Statements.{event_lines};
ghost use Rattle.account_statement.specs.Telling.{holding_of, Agrees, IsTold};
ghost use Rattle.account_statement.specs.Private.{event_of, seen_by, IsServed, Tells, MayTake, MayClear, fills_for};

use crate::Statement;
use crate::batch::own_part;
use crate::event::{Event, Sight};
use batch_audit::Change;
use journal_records::{ClearedView, PairView, ReplyView, SkippedView};
use market_core::Market;
use pair_text::Text;
use statement_lines::{
    put_amount, put_cancel, put_cleared, put_opening, put_order, put_refused, put_skipped,
};
use wire_records::{CommandView, Memory, Reply};

impl Statement {
    // Takes a valid entry.
    pub(crate) fn tell(
        &mut self,
        market: &Market,
        pair: &PairView<'_>,
        reply: &ReplyView<'_>,
        change: &Change<'_>,
        out: &mut Text,
    ) -> Result<(), Memory>
        requires agrees { Agrees market.now self.old }
        requires replied { EncodesAnswer pair.now.1 (answer_of reply.now) }
        requires change { IsChangeOf market.now pair.now change.now }
        ensures account { self.new.account ≡ self.old.account }
        ensures told { OnOk result ((next : market_value) (legal : IsLegalPair market.now pair.now next)
            → IsTold market.now pair.now self.old self.new out.old.text out.new.text next legal) }
        ensures stays { OnErr result (self.new ≡ self.old) }
        ensures before { out.new.before ≡ out.old.before }
    {
        // Called for its contract: the market is consistent.
        let _consistent = market.accounts();
        match reply {
            ReplyView::Plain(reply) => match change.command() {
                Some(command) => self.tell_plain(command, *reply, out),
                None => Ok(()),
            },
            ReplyView::Cleared(view) => self.tell_cleared(view, out),
            ReplyView::Skipped(view) => self.tell_skipped(view, out),
        }
    }

    // Takes a command that holds no batch, or that was refused.
    fn tell_plain(
        &mut self,
        command: &CommandView<'_>,
        answer: Reply,
        out: &mut Text,
    ) -> Result<(), Memory>
        requires { IsServed self.old (command_of command.now) (Plain answer) }
        ensures told { OnOk result (Tells (seen_by self.old (command_of command.now) (Plain answer)) self.old self.new out.old.text out.new.text) }
        ensures stays { OnErr result (self.new ≡ self.old) }
        ensures before { out.new.before ≡ out.old.before }
    {
        let sight = Sight {
            account: self.account,
            is_open: self.is_open,
            command,
            answer,
        };
        match sight.event() {
            Some(event) => self.tell_event(&event, out),
            None => Ok(()),
        }
    }

    // Takes what is seen of a command: first its line, and then its change.
    fn tell_event(&mut self, event: &Event<'_>, out: &mut Text) -> Result<(), Memory>
        requires { MayTake self.old.account (holding_of self.old) (event_of event.now) }
        ensures told { OnOk result (Tells (event_of event.now ∷ []) self.old self.new out.old.text out.new.text) }
        ensures stays { OnErr result (self.new ≡ self.old) }
        ensures before { out.new.before ≡ out.old.before }
    {
        self.put_event(event, out)?;
        self.make(event)
    }

    // Appends the line of what is seen of a command. An asset that is added has none.
    fn put_event(&self, event: &Event<'_>, out: &mut Text) -> Result<(), Memory>
        ensures put { OnOk result (out.new.text ≡ out.old.text ++ event_lines (holding_of self.now) (event_of event.now)) }
        ensures before { out.new.before ≡ out.old.before }
    {
        match *event {
            Event::Adds(_) => Ok(()),
            Event::Opens(account) => put_opening(account, out),
            Event::Deposits(asset, count) => {
                put_amount(b"deposit", &self.tickers, asset, count, out)
            }
            Event::Withdraws(asset, count) => {
                put_amount(b"withdraw", &self.tickers, asset, count, out)
            }
            Event::Credits(asset, count) => {
                put_amount(b"credit", &self.tickers, asset, count, out)
            }
            Event::Places {
                number,
                last,
                place,
            } => put_order(&self.tickers, number, last, place, out),
            Event::Cancels(number) => put_cancel(number, out),
            Event::Refuses { refusal, .. } => put_refused(refusal, out),
        }
    }

    // Takes a batch that cleared: first its lines, and then its change.
    fn tell_cleared(&mut self, view: &ClearedView<'_>, out: &mut Text) -> Result<(), Memory>
        requires { self.old.is_open ≡ true → MayClear (holding_of self.old) view.now.clearing }
        ensures told { OnOk result (Tells (event_if self.old.is_open (Clears view.now.batch view.now.clearing.prices
            (fills_for view.now.clearing.fills self.old.orders))) self.old self.new out.old.text out.new.text) }
        ensures stays { OnErr result (self.new ≡ self.old) }
        ensures before { out.new.before ≡ out.old.before }
    {
        if !self.is_open {
            return Ok(());
        }
        put_cleared(view.batch(), out)?;
        let part = own_part(self.alloc, view, self.book.orders(), out)?;
        self.settle(view, &part);
        Ok(())
    }

    // Takes a batch that was skipped.
    fn tell_skipped(&mut self, view: &SkippedView<'_>, out: &mut Text) -> Result<(), Memory>
        ensures told { OnOk result (Tells (event_if self.old.is_open (Skips view.now.batch)) self.old self.new out.old.text out.new.text) }
        ensures stays { OnErr result (self.new ≡ self.old) }
        ensures before { out.new.before ≡ out.old.before }
    {
        if !self.is_open {
            return Ok(());
        }
        put_skipped(view.batch(), out)?;
        self.book.end(view.batch());
        Ok(())
    }
}
