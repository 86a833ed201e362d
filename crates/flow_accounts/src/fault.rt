ghost use Rattle.std.specs.Prelude.{◌≡◌};
ghost use Rattle.flow_accounts.specs.declared.fault.AccountFault.TheVariants.{Memory};

use std::alloc::AllocError;

/// Why a call on accounts refuses. A refused call changes nothing.
#[derive(Clone, Copy, Debug, PartialEq, Eq)]
pub enum AccountFault {
    /// The account is 0 or above the count of accounts.
    NoAccount,
    /// The asset isn't below the count of assets.
    NoAsset,
    /// The amount is 0.
    Zero,
    /// The total after the deposit would pass its limit.
    TotalLimit,
    /// There are as many accounts as there may be.
    Full,
    /// The withdrawal is above what is free: the balance less what is reserved, in grains or units, which is negative
    /// if credit is in use.
    NotFree(i128),
    /// The credit is above 2^40 ticks or units.
    CreditLimit,
    /// The credit is below what is in use of it: what is reserved less the balance, in grains or units.
    InUse(i128),
    /// Out of memory for another account.
    Memory,
}

impl From<AllocError> for AccountFault {
    ghost from_gives = { λ _ fault. fault ≡ Memory };

    fn from(_failed: AllocError) -> AccountFault {
        AccountFault::Memory
    }
}
