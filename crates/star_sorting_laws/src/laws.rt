//! Laws of sorted lists.
ghost use Rattle.std.specs.Prelude.{IfOk, List};
ghost use Rattle.std.specs.List.Sorted.{IsPermutation};
ghost use Rattle.star_core.specs.Heaps.{HeapState};
ghost use Rattle.star_core.specs.declared.dict.Pair.{Pair};
ghost use Rattle.star_sorting.specs.Sorting.{sorted_pairs};
ghost use Rattle.star_sorting.specs.declared.comparing.Direction.{Direction};
ghost use Rattle.star_sorting_laws.specs.InOrder.{SortsInOrder, SortsStably};
ghost use Rattle.star_sorting_laws.specs.InOrder.{SortsValuesInOrder, SortsValuesStably};

/// A sorted list is a permutation of the pairs.
pub fn sorting_permutes()
    ensures { (heap : HeapState) (way : Direction) (pairs : List Pair)
        → IfOk (sorted_pairs heap way pairs) (λ sorted. IsPermutation pairs sorted) }
{}

/// A sorted list is in order.
pub fn sorted_pairs_are_in_order()
    ensures { SortsInOrder }
{}

/// Sorting keeps the order of pairs whose keys are neither less nor greater, in either direction.
pub fn sorting_is_stable()
    ensures { SortsStably }
{}

/// The same of values, as `sorted` sorts them without a key.
pub fn sorted_values_are_in_order()
    ensures { SortsValuesInOrder }
{}

pub fn sorting_values_is_stable()
    ensures { SortsValuesStably }
{}
