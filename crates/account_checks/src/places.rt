//! Where a balance is.

// An account, and an asset unless it is the account's money.
#[derive(Clone, Copy)]
pub(crate) struct Place {
    pub(crate) account: u32,
    pub(crate) asset: Option<u16>,
}

// Returns the place that is written as `ACCOUNT` or `ACCOUNT/ASSET`.
pub(crate) fn place_of(word: &str) -> Option<Place> {
    match word.split_once('/') {
        Some((account, asset)) => Some(Place {
            account: account.parse().ok()?,
            asset: Some(asset.parse().ok()?),
        }),
        None => Some(Place {
            account: word.parse().ok()?,
            asset: None,
        }),
    }
}
