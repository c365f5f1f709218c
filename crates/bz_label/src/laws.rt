//! What the definitions imply.
ghost use Rattle.std.specs.Prelude.{◌≡◌, ℕ, List, Ok, IsTrue};
ghost use Rattle.bz_base.specs.Labels.{IsLabel};
ghost use Rattle.bz_base.specs.declared.labels.Label.{Label};
ghost use Rattle.bz_label.specs.Grammar.{SpellsLabel};
ghost use Rattle.bz_label.specs.Mappings.{are_names};
ghost use Rattle.bz_label.specs.Parts.{label_parts};
ghost use Rattle.bz_label.specs.Resolution.{resolved};
ghost use Rattle.bz_label.specs.declared.label_text.LabelText.{LabelText};

/// What spells a label is taken apart into the label's parts.
pub fn what_spells_a_label_is_given()
    ensures { (text : List ℕ) (parts : LabelText) → SpellsLabel text parts → label_parts text ≡ Ok parts }
{}

/// A text is a label in one way at most.
pub fn a_label_has_one_reading()
    ensures { (text : List ℕ) (parts other : LabelText)
        → SpellsLabel text parts
        → SpellsLabel text other
        → parts ≡ other }
{}

/// What a text means in a good home under good names is a good label.
pub fn resolved_labels_are_good()
    ensures { (names : List (List ℕ × List ℕ)) (home label : Label) (text : List ℕ)
        → IsTrue (are_names names)
        → IsLabel home
        → resolved names home text ≡ Ok label
        → IsLabel label }
{}
