//! The lines of batches.
ghost use Rattle.std.specs.Prelude.{◌≡◌, ◌++◌, OnOk};
ghost use Rattle.statement_lines.specs.Lines.{cleared_line, skipped_line, order_line};

use pair_text::Text;
use wire_records::Memory;

/// Appends the line of a batch that cleared.
pub fn put_cleared(batch: u32, out: &mut Text) -> Result<(), Memory>
    ensures before { out.new.before ≡ out.old.before }
    ensures put { OnOk result (out.new.text ≡ out.old.text ++ cleared_line batch) }
{
    out.put_number(b"batch ", batch)?;
    out.put(b" cleared\n")
}

/// Appends the line of a batch that was skipped.
pub fn put_skipped(batch: u32, out: &mut Text) -> Result<(), Memory>
    ensures before { out.new.before ≡ out.old.before }
    ensures put { OnOk result (out.new.text ≡ out.old.text ++ skipped_line batch) }
{
    out.put_number(b"batch ", batch)?;
    out.put(b" skipped\n")
}

/// Appends the line of an order of the account's own in a batch that cleared: its rate, in units of its portfolio, and
/// what these cost at the prices, in grains.
pub fn put_cost(number: u64, rate: u32, cost: i128, out: &mut Text) -> Result<(), Memory>
    ensures before { out.new.before ≡ out.old.before }
    ensures put { OnOk result (out.new.text ≡ out.old.text ++ order_line number rate cost) }
{
    out.put_number(b"  order ", number)?;
    out.put_number(b" rate ", rate)?;
    out.put_number(b" cost ", cost)?;
    out.put(b"\n")
}
