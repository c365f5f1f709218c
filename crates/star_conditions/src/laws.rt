//! What every resolved file meets.
ghost use Rattle.std.specs.Prelude.{◌≡◌, ℕ, true, List, Ok};
ghost use Rattle.star_trees.specs.Counted.{StandsThere, VariablesAreCounted, variable_counted};
ghost use Rattle.star_trees.specs.Mentions.{FunctionsAreMentioned};
ghost use Rattle.star_trees.specs.Nesting.{NestedWithin, deepest};
ghost use Rattle.star_trees.specs.Orders.{HasNoRefusedForm};
ghost use Rattle.star_trees.specs.Indexes.{IndexesAreThere};
ghost use Rattle.star_trees.specs.WellFormed.{WellFormed};
ghost use Rattle.star_trees.specs.declared.files.File.{File};
ghost use Rattle.star_trees.specs.declared.trees.Var.{Var};
ghost use Rattle.star_grammar.specs.declared.bare_statements.BareFile.{BareFile};
ghost use Rattle.star_grammar.specs.declared.bare_statements.BareStmt.{BareStmt};
ghost use Rattle.star_grammar.specs.Texts.{Spelled};
ghost use Rattle.star_trees.specs.Variables.{Names};
ghost use Rattle.star_scopes.specs.declared.dialects.Dialect.{Dialect};
ghost use Rattle.star_scopes.specs.Files.{resolved};

/// Each function and each load that a resolved file's trees speak of is one of the file's.
pub fn indexes_are_there()
    ensures { (dialect : Dialect) (body : List BareStmt) (file : File)
        → resolved dialect body ≡ Ok file
        → IndexesAreThere file }
{}

/// The trees of a resolved file speak of each of its functions once, by a `def` or a `lambda` as
/// the function is one.
pub fn functions_are_mentioned()
    ensures { (dialect : Dialect) (body : List BareStmt) (file : File)
        → resolved dialect body ≡ Ok file
        → FunctionsAreMentioned file }
{}

/// Each variable of a resolved file stands at the scope and the slot that its name has there,
/// counted again from the file's trees.
pub fn variables_are_counted()
    ensures { (dialect : Dialect) (body : List BareStmt) (file : File)
        → resolved dialect body ≡ Ok file
        → VariablesAreCounted file }
{}

/// A variable that is counted right has its name at its slot, in one of the scopes round it or
/// among the free names behind them.
pub fn counted_variables_stand_there()
    ensures { (free : Names) (scopes : List Names) (variable : Var)
        → variable_counted free variable scopes ≡ true
        → StandsThere free scopes variable }
{}

/// No tree of a file that is spelled and resolved, and no function of it, is nested deeper than the
/// grammar allows.
pub fn no_tree_is_too_deep()
    ensures { (dialect : Dialect) (text : List ℕ) (tree : BareFile) (file : File)
        → Spelled text tree
        → resolved dialect tree.body ≡ Ok file
        → NestedWithin deepest file }
{}

/// A file that is spelled and resolved has no form that the grammar refuses: arguments and
/// parameters stand in order, no name of them stands twice, and each statement stands where it may.
pub fn no_refused_form_is_there()
    ensures { (dialect : Dialect) (text : List ℕ) (tree : BareFile) (file : File)
        → Spelled text tree
        → resolved dialect tree.body ≡ Ok file
        → HasNoRefusedForm file }
{}

/// The file of a text's tree is well formed.
pub fn parsed_files_are_well_formed()
    ensures { (dialect : Dialect) (text : List ℕ) (tree : BareFile) (file : File)
        → Spelled text tree
        → resolved dialect tree.body ≡ Ok file
        → WellFormed file }
{}
