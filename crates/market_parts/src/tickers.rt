//! The table of the tickers.
ghost use Rattle.std.specs.Prelude.{◌≡◌, ◌∷◌, [], ◌++◌, IfOk, OnOk, IsErrOf};
ghost use Rattle.ticker_table.specs.Tickers.{AreTickers, ticker_limit};
ghost use Rattle.ticker_table.specs.Adding.{IsAddable};
ghost use Rattle.market_parts.specs.Tests.{IsInShape};

use crate::{MarketParts, RestoreFault};
use std::alloc::Global;
use ticker_table::{TickerFault, TickerTable};

// Returns the table of the tickers, or `Unsound` if they aren't valid and distinct or are too many.
pub(crate) fn tickers_of<P: MarketParts>(
    alloc: Global,
    parts: &P,
) -> Result<TickerTable, RestoreFault>
    requires shape { IsInShape (P.balances parts.now) (P.parts parts.now) }
    ensures tickers { IfOk result (λ tickers. tickers ≡ (P.parts parts.now).tickers) }
    ensures valid { OnOk result (AreTickers (P.parts parts.now).tickers) }
    ensures unsound { IsErrOf result RestoreFault.Unsound → ¬ AreTickers (P.parts parts.now).tickers }
{
    let mut tickers = TickerTable::new(alloc);
    for asset in 0..parts.asset_count() {
        add_ticker(&mut tickers, parts.ticker(asset).unwrap())?;
    }
    Ok(tickers)
}

fn add_ticker(tickers: &mut TickerTable, ticker: [u8; 8]) -> Result<(), RestoreFault>
    ensures added { OnOk result (tickers.new ≡ tickers.old ++ ticker ∷ []) }
    ensures addable { OnOk result (IsAddable ticker_limit tickers.old ticker) }
    ensures unsound { IsErrOf result RestoreFault.Unsound → ¬ IsAddable ticker_limit tickers.old ticker }
{
    match tickers.add(ticker) {
        Ok(_) => Ok(()),
        Err(TickerFault::BadTicker) => Err(RestoreFault::Unsound),
        Err(TickerFault::Taken(_)) => Err(RestoreFault::Unsound),
        Err(TickerFault::Full) => Err(RestoreFault::Unsound),
        Err(TickerFault::Memory) => Err(RestoreFault::Memory),
    }
}
