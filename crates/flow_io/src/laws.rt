//! Laws of the faults, for code that compares them. The function does nothing; its clauses are
//! the law.
ghost use Rattle.std.specs.Prelude.{◌≡◌, ◌↔◌, IsTrue};
ghost use Rattle.flow_io.specs.declared.sink.WriteFailed.{WriteFailed};
ghost use Rattle.flow_io.specs.declared.source.ReadFailed.{ReadFailed};
ghost use Rattle.out_of_memory.specs.declared.Memory.{Memory};
ghost use Rattle.flow_io.specs.declared.whole.ReadAllFault.{ReadAllFault};

use crate::{Memory, ReadAllFault, ReadFailed, WriteFailed};

/// `==` on faults is equality: it is true exactly if the two are the same.
pub fn faults_compare_by_value()
    ensures read { (a b : ReadFailed) → IsTrue (⟦<ReadFailed as PartialEq>⟧.eq a b) ↔ (a ≡ b) }
    ensures write { (a b : WriteFailed) → IsTrue (⟦<WriteFailed as PartialEq>⟧.eq a b) ↔ (a ≡ b) }
    ensures read_all { (a b : ReadAllFault) →
        IsTrue (⟦<ReadAllFault as PartialEq>⟧.eq a b) ↔ (a ≡ b) }
    ensures memory { (a b : Memory) → IsTrue (⟦<Memory as PartialEq>⟧.eq a b) ↔ (a ≡ b) }
{}
