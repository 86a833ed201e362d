//! How a subcommand begins in the market of a history.
ghost use Rattle.std.specs.Prelude.{◌≡◌, ◌≤◌, List, ℕ, [], IfOk, OnOk, OnErr, vec_len, vec_capacity};
ghost use Rattle.market_rules.specs.Market.{Market as market_value};

use journal_words::OnPair;
use market_core::Market;
use std::alloc::Global;
use word_driver::Memory;

/// How a subcommand begins in the market that a history begins in: what it writes there before the first entry, and what it then does with
/// the entries.
pub trait OnHistory<P: OnPair> {
    // What may be made of a market, to be done with the entries after it.
    ghost makes: { Self → market_value → P → Type 0 };
    // The text that is written before the first entry, by the market.
    ghost opens: { Self → market_value → List ℕ };

    // Whether `begin` may allocate in a market.
    ghost allocates: { Self → market_value → Type 0 };

    /// Begins in a market, which is as before: returns what is done with the entries, and puts the text to be written before the first one
    /// into a buffer that is empty. `Memory` comes only if `allocates` holds of the market.
    fn begin(self, alloc: Global, market: &mut Market, text: &mut Vec<u8>) -> Result<P, Memory>
        requires empty { text.old.items ≡ [] }
        requires none { vec_len text.old ≡ 0 }
        requires room { P.ROOM ≤ vec_capacity text.old }
        ensures room { vec_capacity text.old ≤ vec_capacity text.new }
        ensures market { market.new ≡ market.old }
        ensures within { IfOk result (λ on. P.is_within on market.old 0) }
        ensures made { IfOk result (makes self market.old) }
        ensures opened { OnOk result (text.new.items ≡ opens self market.old) }
        ensures wanted { OnErr result (allocates self market.old) };
}

// Writes nothing before the first entry, and begins with `on` in any market.
#[derive(Drop)]
pub(crate) struct Plainly<P: OnPair> {
    pub(crate) on: P,
    ghost within: { (market : market_value) → P.is_within on market 0 } by { λ one other at market. P.within_is_prop on market 0 (one market) (other market) at },
}

impl<P: OnPair + Drop> OnHistory<P> for Plainly<P> {
    ghost makes = { λ plain market on. on ≡ plain.on };

    ghost opens = { λ plain market. [] };

    ghost allocates = { λ plain market. ⊥ };

    fn begin(self, _alloc: Global, _market: &mut Market, _text: &mut Vec<u8>) -> Result<P, Memory> {
        Ok(self.on)
    }
}
