//! Laws of the heap.
ghost use Rattle.std.specs.Prelude.{◌≡◌, List, Ok, ℕ};
ghost use Rattle.star_core.specs.Conditions.{IsCellOf, IsHeapOf, Surroundings};
ghost use Rattle.star_core.specs.HeapLaws.{Extends, FitsAt, HasContent, HasValue};
ghost use Rattle.star_core.specs.Heaps.{HeapState, all_frozen, given, literal_made, made};
ghost use Rattle.star_core.specs.Heaps.{restarted, taken, unwalked, walked};
ghost use Rattle.star_core.specs.Hosts.{IsValueOf};
ghost use Rattle.star_core.specs.declared.cells.Cell.{Cell};
ghost use Rattle.star_core.specs.declared.values.Val.{Val};

/// A value of a heap is one of each heap that has all its cells.
#[tactic(auto, using(crate::proofs::HeapGrowth::value_extends))]
pub fn values_stay_values()
    ensures { (before now : HeapState) (value : Val) → Extends before now
        → IsValueOf before value → IsValueOf now value }
{}

/// Making a good cell keeps a heap good, and gives a value of it.
pub fn making_keeps_a_heap_good()
    ensures { (round : Surroundings) (heap : HeapState) (new : Cell) (change : Val × HeapState)
        → IsHeapOf round heap → IsCellOf round heap new → made new heap ≡ Ok change
        → HasValue round change.1 change.0 }
{}

/// A literal keeps a heap good, and gives a value of it.
pub fn literals_keep_a_heap_good()
    ensures { (round : Surroundings) (heap : HeapState) (text : List ℕ)
        (change : Val × HeapState) → IsHeapOf round heap → literal_made text heap ≡ Ok change
        → HasValue round change.1 change.0 }
{}

/// Freezing and setting the sum to 0 keep a heap good.
pub fn freezing_keeps_a_heap_good()
    ensures { (round : Surroundings) (heap : HeapState) → IsHeapOf round heap
        → IsHeapOf round (all_frozen heap) }
{}

pub fn restarting_keeps_a_heap_good()
    ensures { (round : Surroundings) (heap : HeapState) → IsHeapOf round heap
        → IsHeapOf round (restarted heap) }
{}

/// Walks keep a heap good.
pub fn walking_keeps_a_heap_good()
    ensures { (round : Surroundings) (heap : HeapState) (value : Val) → IsHeapOf round heap
        → IsHeapOf round (walked value heap) }
{}

pub fn ending_a_walk_keeps_a_heap_good()
    ensures { (round : Surroundings) (heap : HeapState) (value : Val) → IsHeapOf round heap
        → IsHeapOf round (unwalked value heap) }
{}

/// Taking the content of a list or a dictionary keeps a heap good, and the content is good.
pub fn taking_keeps_a_heap_good()
    ensures { (round : Surroundings) (heap : HeapState) (value : Val) (change : Cell × HeapState)
        → IsHeapOf round heap → taken value heap ≡ Ok change
        → HasContent round change.1 change.0 }
{}

/// Putting back a good content of a cell's kind keeps a heap good, also where it is refused.
pub fn putting_back_keeps_a_heap_good()
    ensures { (round : Surroundings) (heap : HeapState) (value : Val) (content : Cell)
        (added : ℕ) → FitsAt heap value content → IsHeapOf round heap
        → IsCellOf round heap content → IsHeapOf round (given value content added heap) }
{}
