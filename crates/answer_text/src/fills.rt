//! What an account is told of a batch in which its orders were live.
ghost use Rattle.std.specs.Prelude.{◌≡◌, ◌<◌, ◌++◌, ◌∷◌, [], length, OnOk};
ghost use Rattle.pair_text.specs.Texts.{◌then◌};
ghost use Rattle.answer_text.specs.Texts.{listed, comma};
ghost use Rattle.answer_text.specs.Answers.{fill_at, fill_item, fills_members};

use crate::quoted::put_comma;
use pair_text::Text;
use wire_records::Memory;

/// The rate of an order in a batch that cleared, and what it costs.
#[derive(Clone, Copy)]
pub struct FillCost {
    /// The order's number.
    pub order: u64,
    /// The rate, in units of its portfolio.
    pub rate: u32,
    /// What the rate costs at the batch's prices, in grains. It is negative if the order's account receives money.
    pub cost: i128,
}

// Appends an order's rate.
fn put_fill(fill: &FillCost, out: &mut Text) -> Result<(), Memory>
    ensures before { out.new.before ≡ out.old.before }
    ensures put { OnOk result (out.new.text ≡ out.old.text ++ fill_item (fill.now ∷ []) 0) }
{
    out.put_number(b"{\"order\":", fill.order)?;
    out.put_number(b",\"rate\":", fill.rate)?;
    out.put_number(b",\"cost\":\"", fill.cost)?;
    out.put(b"\"}")
}

// Appends the rate of the order at a place, with the comma before it.
fn put_item(fills: &[FillCost], place: usize, out: &mut Text) -> Result<(), Memory>
    requires { place < length fills.now }
    ensures before { out.new.before ≡ out.old.before }
    ensures put { OnOk result (out.new.text ≡ out.old.text ++ (comma place then fill_item fills.now place)) }
{
    put_comma(place, out)?;
    put_fill(&fills[place], out)
}

// Appends the rates of all orders.
fn put_items(fills: &[FillCost], out: &mut Text) -> Result<(), Memory>
    ensures before { out.new.before ≡ out.old.before }
    ensures put { OnOk result (out.new.text ≡ out.old.text ++ listed (fill_item fills.now) (length fills.now)) }
{
    for place in 0..fills.len() {
        put_item(fills, place, out)?;
    }
    Ok(())
}

/// Appends the members of a batch that an account is told whose orders were live in it: its number, and the rate of each of these
/// orders and what it costs, in the order in which they are given.
pub fn put_fills(batch: u32, fills: &[FillCost], out: &mut Text) -> Result<(), Memory>
    ensures before { out.new.before ≡ out.old.before }
    ensures put { OnOk result (out.new.text ≡ out.old.text ++ fills_members batch fills.now) }
{
    out.put_number(b"\"do\":\"batch\",\"batch\":", batch)?;
    out.put(b",\"fills\":[")?;
    put_items(fills, out)?;
    out.put(b"]")
}
