//! Verdicts on published clearings.
ghost use Rattle.std.specs.Prelude.{◌<◌, ◌≤◌, ◌^◌, length};

use crate::books::Book;
use crate::telling::{add_pairs, put, put_word};
use batch_certificate::{Verdict, check_cleared};
use batch_outcome::ClearedParts;
use check_lines::Told;
use flow_orders::MOST_ORDERS;
use std::alloc::Global;

// A published clearing in memory: price and imbalance of each asset, number and rate of each order, and the gap.
#[derive(Drop)]
struct Published<'a> {
    assets: &'a [(i64, i64)],
    fills: &'a [(u64, u32)],
    gap: i128,
    ghost few: { length assets.now ≤ 64 },
    ghost few_fills: { length fills.now < 2 ^ 32 },
}

impl<'a> ClearedParts for Published<'a> {
    ghost use Rattle.std.specs.Prelude.{ℕ, ℤ, map};

    ghost clearing = { λ p. record {
      prices = map (λ (a : ℤ × ℤ). a.0) p.assets.now;
      fills = map (λ (f : ℕ × ℕ). record { order = f.0; rate = f.1 }) p.fills.now;
      residuals = map (λ (a : ℤ × ℤ). a.1) p.assets.now;
      gap = p.gap;
    } };

    fn price_count(&self) -> u16 {
        self.assets.len() as u16
    }

    fn price(&self, k: u16) -> Option<i64> {
        Some(self.assets.get(usize::from(k))?.0)
    }

    fn rate_count(&self) -> u32 {
        self.fills.len() as u32
    }

    fn order(&self, k: u32) -> Option<u64> {
        Some(self.fills.get(k as usize)?.0)
    }

    fn rate(&self, k: u32) -> Option<u32> {
        Some(self.fills.get(k as usize)?.1)
    }

    fn residual(&self, k: u16) -> Option<i64> {
        Some(self.assets.get(usize::from(k))?.1)
    }

    fn gap(&self) -> i128 {
        self.gap
    }
}

fn put_place(word: &str, place: u32, told: &mut Told) {
    put_word(word, told);
    put(place.into(), told)
}

fn put_verdict(verdict: Verdict, told: &mut Told) {
    match verdict {
        Verdict::Right => put_word("right", told),
        Verdict::Count => put_word("count", told),
        Verdict::Price(asset) => put_place("price", asset.into(), told),
        Verdict::Rate(place) => put_place("rate", place, told),
        Verdict::Residual(asset) => put_place("residual", asset.into(), told),
        Verdict::Gap => put_word("gap", told),
    }
}

fn put_of(
    assets: &[(i64, i64)],
    fills: &[(u64, u32)],
    gap: i128,
    book: &Book<'_>,
    told: &mut Told,
) {
    if assets.len() > 64 || fills.len() > MOST_ORDERS as usize {
        return told.give_up();
    }
    let published = Published { assets, fills, gap };
    put_verdict(check_cleared(book.orders, book.prices, &published), told)
}

// Prints the verdict on lists of assets and fills, and a gap, over a book and start prices.
pub(crate) fn put_judged(alloc: Global, words: &str, book: &Book<'_>, told: &mut Told) {
    let (assets, words) = words.split_once(' ').unwrap_or((words, ""));
    let (fills, gap) = words.split_once(' ').unwrap_or((words, ""));
    let mut published = Vec::new(alloc);
    add_pairs(assets, &mut published, told);
    let mut filled = Vec::new(alloc);
    add_pairs(fills, &mut filled, told);
    match gap.parse() {
        Ok(gap) => put_of(&published, &filled, gap, book, told),
        Err(_) => told.give_up(),
    }
}
