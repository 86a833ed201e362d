//! What an account sees of a command with its answer.
ghost use Rattle.std.specs.Prelude.{◌≡◌, ◌==◌, ◌&&◌, false};
ghost use Rattle.wire_records.specs.Commands.{AddAsset, OpenAccount};
ghost use Rattle.wire_records.specs.Views.{command_of};
ghost use Rattle.statement_rules.specs.Views.{Opens, Places, event_if, by_reply, seen_own, seen_plain};
ghost use Rattle.account_statement.specs.Private.{event_of, events_of};

use wire_records::{CommandView, PlaceView, Refusal, Reply};

// What an account sees of a command that holds no batch, in borrowed bytes. A count is of ticks if no asset is given, and else of whole
// units of this asset.
#[derive(Drop)]
pub(crate) enum Event<'a> {
    // An asset is added under this ticker, of 8 bytes.
    Adds(&'a [u8]),
    // The account is opened, under this number.
    Opens(u32),
    // The asset of a deposit, and its count.
    Deposits(Option<u16>, u64),
    // The asset of a withdrawal, and its count.
    Withdraws(Option<u16>, u64),
    // The asset of a credit that is set, and its count.
    Credits(Option<u16>, u64),
    // An order is placed under this number.
    Places {
        number: u64,
        last: Option<u32>,
        place: &'a PlaceView<'a>,
    },
    // The order of this number is cancelled.
    Cancels(u64),
    // A command of the account's own is refused.
    Refuses {
        command: &'a CommandView<'a>,
        refusal: Refusal,
    },
}

// Returns the number that an answer gives, or 0 if it gives none.
fn number_in(answer: Reply) -> u64
    ensures { result ≡ by_reply (λ refusal. 0) (λ number. number) answer }
{
    match answer {
        Reply::Done => 0,
        Reply::Asset(asset) => u64::from(asset),
        Reply::Account(account) => u64::from(account),
        Reply::Order(number) => number,
        Reply::Refused(_) => 0,
    }
}

// Returns what is seen of an asset that is added.
fn added(ticker: &[u8], answer: Reply) -> Option<Event<'_>>
    ensures { seen_plain 0 false (AddAsset ticker.now) answer ≡ events_of result }
{
    match answer {
        Reply::Done => Some(Event::Adds(ticker)),
        Reply::Asset(_) => Some(Event::Adds(ticker)),
        Reply::Account(_) => Some(Event::Adds(ticker)),
        Reply::Order(_) => Some(Event::Adds(ticker)),
        Reply::Refused(_) => None,
    }
}

// Returns what is seen of an account that is opened under a number: the opening, if it is this one.
fn opening<'a>(number: u64, account: u32) -> Option<Event<'a>>
    ensures { event_if (number == account) (Opens account) ≡ events_of result }
{
    if number == u64::from(account) {
        return Some(Event::Opens(account));
    }
    None
}

// Returns what is seen of an account that is opened.
fn opened<'a>(account: u32, answer: Reply) -> Option<Event<'a>>
    ensures { seen_plain account false OpenAccount answer ≡ events_of result }
{
    match answer {
        Reply::Done => opening(0, account),
        Reply::Asset(number) => opening(u64::from(number), account),
        Reply::Account(number) => opening(u64::from(number), account),
        Reply::Order(number) => opening(number, account),
        Reply::Refused(_) => None,
    }
}

// A command that holds no batch, or that was refused, with its answer, and the account that looks at them.
#[derive(Drop)]
pub(crate) struct Sight<'a> {
    pub(crate) account: u32,
    pub(crate) is_open: bool,
    pub(crate) command: &'a CommandView<'a>,
    pub(crate) answer: Reply,
}

impl<'a> Sight<'a> {
    // Returns what the account sees.
    pub(crate) fn event(&self) -> Option<Event<'a>>
        ensures { seen_plain self.now.account self.now.is_open (command_of self.now.command.now) self.now.answer ≡ events_of result }
    {
        match *self.command {
            CommandView::AddAsset(ticker) => added(ticker, self.answer),
            CommandView::OpenAccount => opened(self.account, self.answer),
            CommandView::DepositMoney { account, ticks } => {
                self.own(account, Event::Deposits(None, ticks))
            }
            CommandView::DepositAsset {
                account,
                asset,
                units,
            } => self.own(account, Event::Deposits(Some(asset), units)),
            CommandView::WithdrawMoney { account, ticks } => {
                self.own(account, Event::Withdraws(None, ticks))
            }
            CommandView::WithdrawAsset {
                account,
                asset,
                units,
            } => self.own(account, Event::Withdraws(Some(asset), units)),
            CommandView::PlaceOrder(ref place) => self.placed(None, place),
            CommandView::PlaceUntil { last, ref place } => self.placed(Some(last), place),
            CommandView::CancelOrder { account, order } => {
                self.own(account, Event::Cancels(order))
            }
            CommandView::RunBatch { .. } => None,
            CommandView::SetMoneyCredit { account, ticks } => {
                self.own(account, Event::Credits(None, ticks))
            }
            CommandView::SetUnitCredit {
                account,
                asset,
                units,
            } => self.own(account, Event::Credits(Some(asset), units)),
        }
    }

    // Returns what is seen of an order that is placed, if it is the account's own.
    fn placed(&self, last: Option<u32>, place: &'a PlaceView<'a>) -> Option<Event<'a>>
        ensures { seen_own (self.now.is_open && (place.now.account == self.now.account)) (command_of self.now.command.now)
            (λ number. Places number last place.now) self.now.answer ≡ events_of result }
    {
        self.own(
            place.account(),
            Event::Places {
                number: number_in(self.answer),
                last,
                place,
            },
        )
    }

    // Returns what is seen of a command that names an account, if that is this one: the refusal, or what the command does.
    fn own(&self, named: u32, done: Event<'a>) -> Option<Event<'a>>
        ensures { seen_own (self.now.is_open && (named == self.now.account)) (command_of self.now.command.now)
            (λ number. event_of done.entry) self.now.answer ≡ events_of result }
    {
        if !self.is_own(named) {
            return None;
        }
        match self.answer {
            Reply::Done => Some(done),
            Reply::Asset(_) => Some(done),
            Reply::Account(_) => Some(done),
            Reply::Order(_) => Some(done),
            Reply::Refused(refusal) => Some(Event::Refuses {
                command: self.command,
                refusal,
            }),
        }
    }

    // Returns whether a command that names an account is seen: this account is open, and is the one that is named.
    fn is_own(&self, named: u32) -> bool
        ensures { result ≡ (self.now.is_open && (named == self.now.account)) }
    {
        self.is_open && named == self.account
    }
}
