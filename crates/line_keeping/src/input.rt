//! What is before the lines of an input.
ghost use Rattle.std.specs.Prelude.{◌≡◌, [], None, IfOk, OnErr, IsErr};
ghost use Rattle.flow_io.specs.Faults.{Blames};
ghost use Rattle.input_lines.specs.Finding.{IsOpen};
ghost use Rattle.line_keeping.specs.Private.{ShowsStart, ShowsNone};

use flow_io::{Filled, ReadFailed, Source, Window};
use market_snapshot::CHECKPOINT_MAGIC;

// Whether an input begins with the magic of a checkpoint within the limit. Reads only until that is seen.
pub(crate) fn has_checkpoint<S: Source>(
    window: &mut Window,
    source: &mut S,
    limit: u64,
) -> Result<bool, ReadFailed>
    requires open { IsOpen window.old (S.rest source.old) }
    requires limited { limit ≡ window.old.limit }
    requires first { window.old.place ≡ 0 }
    requires empty { window.old.held ≡ [] }
    requires unended { window.old.over ≡ None }
    ensures shows { IfOk result (ShowsStart window.old window.new (S.rest source.old) (S.rest source.new)) }
    ensures none { OnErr result (ShowsNone window.old.limit (S.rest source.old) (S.rest source.new)) }
    ensures cause { Blames (IsErr result) (S.faults source.old) (S.faults source.new) }
{
    'reads: loop {
        let held = window.held();
        let count = held.len();
        if count >= CHECKPOINT_MAGIC.len() {
            return Ok(held.starts_with(&CHECKPOINT_MAGIC));
        }
        if !CHECKPOINT_MAGIC.starts_with(held) {
            return Ok(false);
        }
        if count as u64 >= limit {
            return Ok(false);
        }
        match window.fill(source, count + 1) {
            Ok(Filled::Enough) => {}
            Ok(Filled::Limited) => return Ok(false),
            Ok(Filled::Ended) => return Ok(false),
            Err(failed) => return Err(failed),
        }
    }
}
