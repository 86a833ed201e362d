//! The number of each order and its rate, in borrowed bytes.
ghost use Rattle.std.specs.Prelude.{◌≡◌, ◌+◌, ◌*◌, ◌<◌, ◌^◌, ◌++◌, ℕ, List, All, map, length, slice_get, Option, Some, IfOk, IfSome, IsSomeAnd};
ghost use Rattle.std.specs.List.{flat_map};
ghost use Rattle.flow_orders.specs.Outcomes.{Fill};
ghost use Rattle.journal_records.specs.Bodies.{fill_encoding, IsFill};

use crate::numbers_view::as_bytes;
use std::alloc::Global;
use std::marker::Model;
use wire_fields::Cursor;
use wire_records::Memory;

// The number of bytes of a fill: eight for the number of its order, and four for its rate.
const FILL: usize = 12;

const NUMBER: usize = 8;

// Fills in borrowed bytes, in their order there. Contracts see them as the list of the fills.
#[derive(Drop)]
pub(crate) struct FillsView<'a> {
    bytes: &'a [u8],
}

impl<'a> Model for FillsView<'a> {
    ghost use Rattle.std.specs.Prelude.{List};
    ghost use Rattle.flow_orders.specs.Outcomes.{Fill};
    ghost use Rattle.journal_records.specs.Private.{fills_in, EncodeFills};

    ghost Value = { List Fill };

    ghost view = { λ v. fills_in v.bytes.now };

    ghost invariant = { λ v. EncodeFills v.bytes.now (fills_in v.bytes.now) };
}

// Returns the order's number in the fill that `bytes` begin with.
fn order_of(bytes: &[u8]) -> Option<u64>
    ensures { (f : Fill) (rest : List ℕ) → IsFill f → bytes.now ≡ fill_encoding f ++ rest → result ≡ Some f.order }
{
    Cursor::new(bytes).take_u64()
}

// Returns the rate in the fill that `bytes` begin with.
fn rate_of(bytes: &[u8]) -> Option<u32>
    ensures { (f : Fill) (rest : List ℕ) → IsFill f → bytes.now ≡ fill_encoding f ++ rest → result ≡ Some f.rate }
{
    let mut cursor = Cursor::new(bytes);
    cursor.take(NUMBER)?;
    cursor.take_u32()
}

impl<'a> FillsView<'a> {
    pub(crate) fn len(&self) -> usize
        ensures { result ≡ length self.now }
    {
        self.bytes.len() / FILL
    }

    // Returns the number of the order at place `k`, counted from 0, or `None` if there are `k` or fewer.
    pub(crate) fn order(&self, k: usize) -> Option<u64>
        ensures { result ≡ slice_get (map (λ (f : Fill). f.order) self.now) k }
    {
        if k >= self.len() {
            return None;
        }
        order_of(&self.bytes[FILL * k..])
    }

    // Returns the rate of the order at place `k`, counted from 0, or `None` if there are `k` or fewer.
    pub(crate) fn rate(&self, k: usize) -> Option<u32>
        ensures { result ≡ slice_get (map (λ (f : Fill). f.rate) self.now) k }
    {
        if k >= self.len() {
            return None;
        }
        rate_of(&self.bytes[FILL * k..])
    }

    // Copies the rates into a new vector.
    pub(crate) fn to_rates(&self, alloc: Global) -> Result<Vec<u32>, Memory>
        ensures { IfOk result (λ rates. rates.items ≡ map (λ (f : Fill). f.rate) self.now) }
    {
        let mut rates = Vec::with_capacity(alloc, self.len())?;
        while let Some(rate) = self.rate(rates.len()) {
            rates.push_reserved(rate);
        }
        Ok(rates)
    }
}

// Takes `count` fills, or returns `None` if fewer are left.
pub(crate) fn take_fills<'a>(cursor: &mut Cursor<'a>, count: usize) -> Option<FillsView<'a>>
    requires few { count < 2 ^ 32 }
    ensures found { IfSome result (λ fills. cursor.old ≡ flat_map fill_encoding fills ++ cursor.new) }
    ensures size { IfSome result (λ fills. length fills ≡ count) }
    ensures fit { IfSome result (λ fills. All IsFill fills) }
    ensures again { (fills : List Fill) (rest : List ℕ) → length fills ≡ count → All IsFill fills
        → cursor.old ≡ flat_map fill_encoding fills ++ rest
        → IsSomeAnd result (λ found. found ≡ fills) × (cursor.new ≡ rest) }
{
    let bytes = as_bytes(cursor.take(FILL * count)?);
    Some(FillsView { bytes })
}
