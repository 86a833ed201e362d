//! The places of the parts of a checkpoint.
ghost use Rattle.std.specs.Prelude.{◌≡◌, ◌+◌, ◌*◌, IfSome, IfNone};
ghost use Rattle.market_snapshot.specs.Layout.{IsLayout, BeginsWithNoParts};

use byte_places::{u16_at, u32_at};

/// The first 8 bytes of a checkpoint.
pub const CHECKPOINT_MAGIC: [u8; 8] = *b"FLOWSNP1";

// The bytes of an account without those for assets.
const ACCOUNT: usize = 24;

// The bytes of an account's units of an asset, with its credit in it.
pub(crate) const UNITS: usize = 16;

// The bytes of a number with a sign, or of a ticker.
pub(crate) const NUMBER: usize = 8;

// The bytes of an order without those of its legs.
pub(crate) const ORDER: usize = 53;

// The bytes of a leg.
pub(crate) const ENTRY: usize = 6;

// How many assets and accounts there are, and the place after the accounts, where the total of money is.
#[derive(Clone, Copy)]
pub(crate) struct Layout {
    pub(crate) assets: u16,
    pub(crate) accounts: u32,
    pub(crate) totals: usize,
}

// Returns how many bytes an account takes, with its credit line.
pub(crate) fn account_size(assets: u16) -> usize
    ensures { result ≡ 24 + 16 * assets }
{
    ACCOUNT + UNITS * usize::from(assets)
}

// Returns the layout of a checkpoint, if all is there that precedes its orders.
pub(crate) fn layout_of(bytes: &[u8]) -> Option<Layout>
    ensures found { IfSome result (IsLayout bytes.now) }
    ensures none { IfNone result (BeginsWithNoParts bytes.now) }
{
    if bytes.len() < 11 {
        return None;
    }
    if !bytes.starts_with(&CHECKPOINT_MAGIC) {
        return None;
    }
    let assets = u16_at(bytes, 9);
    let count = 11 + NUMBER * usize::from(assets);
    if bytes.len() < count + 4 {
        return None;
    }
    let accounts = u32_at(bytes, count);
    let totals = count + 4 + account_size(assets) * accounts as usize;
    if bytes.len() < totals + 48 + 24 * usize::from(assets) {
        return None;
    }
    Some(Layout {
        assets,
        accounts,
        totals,
    })
}
