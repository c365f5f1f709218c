//! Laws of the definitions.
ghost use Rattle.std.specs.Prelude.{◌≡◌, ℤ};
ghost use Rattle.std.specs.Bool.{Decides};
ghost use Rattle.star_library.specs.Ranges.{range_items};
ghost use Rattle.star_order.specs.Ranges.{same_range};

/// Two ranges are equal exactly where their numbers are one list.
pub fn equal_ranges_have_one_list()
    ensures { (first stop step other_first other_stop other_step : ℤ)
        → Decides (same_range first stop step other_first other_stop other_step)
        (range_items first stop step ≡ range_items other_first other_stop other_step) }
{}
