//! What the grammar and its reading imply.
ghost use Rattle.std.specs.Prelude.{◌≡◌, ℕ, List, Option, Some};
ghost use Rattle.star_grammar.specs.declared.bare_statements.BareFile.{BareFile};
ghost use Rattle.star_grammar.specs.declared.symbols.Symbol.{Symbol};
ghost use Rattle.star_grammar.specs.StatementReading.{file};
ghost use Rattle.star_grammar.specs.Statements.{IsFile};
ghost use Rattle.star_grammar.specs.Texts.{Spelled};

/// The file that is read is what the symbols spell.
pub fn what_is_read_is_spelled()
    ensures { (symbols : List Symbol) (tree : BareFile) → file symbols ≡ Some tree → IsFile symbols tree }
{}

/// The file that symbols spell is read.
pub fn what_is_spelled_is_read()
    ensures { (symbols : List Symbol) (tree : BareFile) → IsFile symbols tree → file symbols ≡ Some tree }
{}

/// A text spells at most one file.
pub fn one_tree()
    ensures { (text : List ℕ) (tree other : BareFile)
        → Spelled text tree
        → Spelled text other
        → tree ≡ other }
{}
