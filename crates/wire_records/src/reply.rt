//! Replies and refusals.
ghost use Rattle.std.specs.Prelude.{◌≡◌, ◌≢◌, IfSome, IfNone};

/// The reply to a command other than a batch.
#[derive(Clone, Copy, Debug, PartialEq, Eq)]
pub enum Reply {
    /// The command was done.
    Done,
    /// The number of the new asset, from 0.
    Asset(u16),
    /// The number of the new account, from 1.
    Account(u32),
    /// The number of the new order, from 1.
    Order(u64),
    /// Nothing was changed, for this reason.
    Refused(Refusal),
}

/// Why a command is refused: the first of these that holds, in the order stated for its command. A refused
/// command changes nothing. The number of a refusal is its code, as a reply encodes it.
#[derive(Clone, Copy, Debug, PartialEq, Eq)]
pub enum Refusal {
    /// No command of the version has the tag.
    UnknownTag = 1,
    /// No command of the tag has this body.
    BadBody = 2,
    /// There are 64 assets already.
    AssetLimit = 3,
    /// An asset has this ticker.
    TickerTaken = 4,
    /// The ticker isn't valid.
    BadTicker = 5,
    /// There are 65,536 accounts already.
    AccountLimit = 6,
    /// The account isn't there.
    NoAccount = 7,
    /// The asset isn't there.
    NoAsset = 8,
    /// The amount is 0.
    ZeroAmount = 9,
    /// The total after the deposit would pass its limit.
    TotalLimit = 10,
    /// The amount, or what a new order needs, is above what is free.
    NotFree = 11,
    /// A limit price is outside -2^28 to 2^28 ticks, or the low one isn't below the high one.
    BadLimits = 12,
    /// The rate is outside 1 to 2^24.
    BadRate = 13,
    /// The cap is outside 1 to 2^40.
    BadCap = 14,
    /// The legs are no weight vector: there are none or more than 16, assets don't ascend, or an absolute weight is
    /// outside 1 to 4,096.
    BadRow = 15,
    /// 16,384 orders are live.
    OrderLimit = 16,
    /// No live order has this number and this account.
    NoOrder = 17,
    /// The budget is outside 1 to 65,536.
    BadBudget = 18,
    /// 2^24 batches were held.
    BatchLimit = 19,
    /// The last batch of the order was held already, or is 0.
    BadLast = 22,
    /// The balance and the credit asked for don't cover what the account's orders need.
    CreditInUse = 23,
    /// The credit is above 2^40 ticks or units.
    CreditLimit = 24,
}

impl Refusal {
    ghost use Rattle.wire_records.specs.declared.reply.Refusal.{Refusal};
    ghost use Rattle.wire_records.specs.Refusals.{code_of};

    /// Returns the code of the refusal, as a reply encodes it: 1 to 19, or 22 to 24. Each refusal has its own.
    pub fn code(&self) -> u8
        ensures { result ≡ code_of self.now }
    {
        *self as u8
    }

    /// Returns the refusal with this code; `None` exactly if the code is neither 1 to 19 nor 22 to 24,
    /// and so no refusal's.
    pub fn of_code(code: u8) -> Option<Refusal>
        ensures found { IfSome result (λ refusal. code_of refusal ≡ code) }
        ensures none { IfNone result ((refusal : Refusal) → code_of refusal ≢ code) }
    {
        Some(match code {
            1 => Refusal::UnknownTag,
            2 => Refusal::BadBody,
            3 => Refusal::AssetLimit,
            4 => Refusal::TickerTaken,
            5 => Refusal::BadTicker,
            6 => Refusal::AccountLimit,
            7 => Refusal::NoAccount,
            8 => Refusal::NoAsset,
            9 => Refusal::ZeroAmount,
            10 => Refusal::TotalLimit,
            11 => Refusal::NotFree,
            12 => Refusal::BadLimits,
            13 => Refusal::BadRate,
            14 => Refusal::BadCap,
            15 => Refusal::BadRow,
            16 => Refusal::OrderLimit,
            17 => Refusal::NoOrder,
            18 => Refusal::BadBudget,
            19 => Refusal::BatchLimit,
            22 => Refusal::BadLast,
            23 => Refusal::CreditInUse,
            24 => Refusal::CreditLimit,
            _ => return None,
        })
    }
}
