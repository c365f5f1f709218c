//! Laws of the definitions, each over all that they speak of.
ghost use Rattle.std.specs.Prelude.{◌≡◌, List, ℕ, Ok};
ghost use Rattle.module_file.specs.LiteralForms.{literal_lines};
ghost use Rattle.module_file.specs.LiteralGrammar.{HasLiteralForm};
ghost use Rattle.module_file.specs.declared.literal_line.LiteralLine.{LiteralLine};

/// The lines that are read are those by which the grammar spells the bytes, and what it spells is
/// read.
pub fn literal_form_is_read()
    ensures read { (bytes : List ℕ) (lines : List LiteralLine)
        → literal_lines bytes ≡ Ok lines
        → HasLiteralForm bytes lines }
    ensures spelled { (bytes : List ℕ) (lines : List LiteralLine)
        → HasLiteralForm bytes lines
        → literal_lines bytes ≡ Ok lines }
{}
