//! What the definitions imply.
ghost use Rattle.std.specs.Prelude.{◌≤◌, IfOk, IsTrue};
ghost use Rattle.bz_base.specs.PlainReading.{is_good, plain_depth};
ghost use Rattle.module_values.specs.PlainValues.{plain_of};
ghost use Rattle.star_core.specs.Heaps.{HeapState};
ghost use Rattle.star_core.specs.declared.values.Val.{Val};

/// A plain value of a heap is good and at most 16 deep.
pub fn plain_values_are_good()
    ensures { (heap : HeapState) (value : Val)
        → IfOk (plain_of heap value) (λ plain. IsTrue (is_good plain) × (plain_depth plain ≤ 16)) }
{}
