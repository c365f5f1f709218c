//! Laws of comparing values.
ghost use Rattle.star_core.specs.Heaps.{HeapState};
ghost use Rattle.star_order.specs.Order.{order};
ghost use Rattle.star_order_laws.specs.KeyContents.{KeysAreOneByContent};
ghost use Rattle.star_order_laws.specs.Orders.{IsOrder};

/// The order of values turns round and goes on, wherever there is one.
pub fn values_are_in_an_order()
    ensures { (heap : HeapState) → IsOrder (order heap) }
{}

/// Two keys are equal exactly where their contents are one.
pub fn keys_are_one_by_content()
    ensures { KeysAreOneByContent }
{}
