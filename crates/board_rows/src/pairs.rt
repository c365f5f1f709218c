//! The boards of the rows: a pair's two jobs as goals, in either order, over files that are absent.
use board_pair::Pair;
use board_work::BoardOf;

/// The lower job comes to its value, and is the first goal.
pub struct LowerFirst;

impl BoardOf<Pair> for LowerFirst {
    ghost use Rattle.std.specs.Prelude.{Some, [], ◌∷◌, true, false};
    ghost use Rattle.board_pair.specs.declared.pair.Lower.TheVariants.{Value};
    ghost use Rattle.board_rows.specs.Brought.{no_files};

    ghost work = { record { lower = Value } };

    ghost goals = { false ∷ true ∷ [] };

    ghost files = { Some no_files };
}

/// The lower job is refused, and is the first goal.
pub struct RefusedFirst;

impl BoardOf<Pair> for RefusedFirst {
    ghost use Rattle.std.specs.Prelude.{Some, [], ◌∷◌, true, false};
    ghost use Rattle.board_pair.specs.declared.pair.Lower.TheVariants.{Refused};
    ghost use Rattle.board_rows.specs.Brought.{no_files};

    ghost work = { record { lower = Refused } };

    ghost goals = { false ∷ true ∷ [] };

    ghost files = { Some no_files };
}

/// The lower job is refused, and is the second goal.
pub struct RefusedSecond;

impl BoardOf<Pair> for RefusedSecond {
    ghost use Rattle.std.specs.Prelude.{Some, [], ◌∷◌, true, false};
    ghost use Rattle.board_pair.specs.declared.pair.Lower.TheVariants.{Refused};
    ghost use Rattle.board_rows.specs.Brought.{no_files};

    ghost work = { record { lower = Refused } };

    ghost goals = { true ∷ false ∷ [] };

    ghost files = { Some no_files };
}

/// Each job asks the other one.
pub struct Cycled;

impl BoardOf<Pair> for Cycled {
    ghost use Rattle.std.specs.Prelude.{Some, [], ◌∷◌, true, false};
    ghost use Rattle.board_pair.specs.declared.pair.Lower.TheVariants.{AsksBack};
    ghost use Rattle.board_rows.specs.Brought.{no_files};

    ghost work = { record { lower = AsksBack } };

    ghost goals = { false ∷ true ∷ [] };

    ghost files = { Some no_files };
}

/// The lower job reads the file of the workspace's own path, and is the second goal.
pub struct Reading;

impl BoardOf<Pair> for Reading {
    ghost use Rattle.std.specs.Prelude.{Some, [], ◌∷◌, true, false};
    ghost use Rattle.board_pair.specs.declared.pair.Lower.TheVariants.{Reads};
    ghost use Rattle.board_rows.specs.Brought.{no_files};

    ghost work = { record { lower = Reads [] } };

    ghost goals = { true ∷ false ∷ [] };

    ghost files = { Some no_files };
}
