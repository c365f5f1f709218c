//! Laws of the order and of the reading, each over all texts.
ghost use Rattle.std.specs.Prelude.{◌≡◌, ◌≢◌, ◌↔◌, List, ℕ, [], Ok, Err};
ghost use Rattle.std.specs.Ordering.{ordering_reverse};
ghost use Rattle.std.specs.declared.cmp.Ordering.TheVariants.{Less, Equal};
ghost use Rattle.bz_version.specs.Below.{IsBelow};
ghost use Rattle.bz_version.specs.Grammar.{IsFault, Parts, Spells, written};
ghost use Rattle.bz_version.specs.Precedence.{parts_of, precedence};
ghost use Rattle.bz_version.specs.Scan.{version_of};
ghost use Rattle.bz_version.specs.declared.versions.BadVersion.{BadVersion};

/// A version is as high as itself.
#[tactic(auto, using(crate::proofs::Orders::precedence_itself))]
pub fn order_is_reflexive()
    ensures { (text : List ℕ) → precedence text text ≡ Equal }
{}

/// Versions of one height have one text.
#[tactic(auto, using(crate::proofs::Orders::precedence_same))]
pub fn order_tells_texts_apart()
    ensures { (first second : List ℕ) → precedence first second ≡ Equal → first ≡ second }
{}

/// Any two versions compare, and the other way round alike.
#[tactic(auto, using(crate::proofs::Orders::precedence_turned))]
pub fn order_turns_round()
    ensures { (first second : List ℕ)
        → precedence second first ≡ ordering_reverse (precedence first second) }
{}

/// What is below a version is below all that is above it.
#[tactic(auto, using(crate::proofs::Orders::precedence_chained))]
pub fn order_is_transitive()
    ensures { (first second third : List ℕ)
        → precedence first second ≡ Less
        → precedence second third ≡ Less
        → precedence first third ≡ Less }
{}

/// Every version is below the empty one.
#[tactic(auto, using(crate::proofs::Orders::precedence_empty))]
pub fn empty_version_is_above()
    ensures { (text : List ℕ) → text ≢ [] → precedence text [] ≡ Less }
{}

/// The order is decided at the first place where two versions differ.
pub fn first_difference_decides()
    ensures { (first second : List ℕ)
        → (precedence first second ≡ Less) ↔ IsBelow (parts_of first) (parts_of second) }
{}

/// What is read is spelled as the grammar has it, by the identifiers that the order sees.
pub fn read_is_spelled()
    ensures { (text kept : List ℕ) → version_of text ≡ Ok kept
        → (build : List ℕ) × Spells text (parts_of kept) build × (kept ≡ written (parts_of kept)) }
{}

/// What the grammar spells is read, and BUILD has no part in what is kept.
pub fn spelled_is_read()
    ensures { (text : List ℕ) (version : Parts) (build : List ℕ) → Spells text version build
        → (version_of text ≡ Ok (written version)) × (parts_of (written version) ≡ version) }
{}

/// The text of a version is that of the version that is read from it.
#[tactic(auto, using(crate::proofs::Readings::kept_is_read_again))]
pub fn kept_text_is_read_again()
    ensures { (text kept : List ℕ) → version_of text ≡ Ok kept → version_of kept ≡ Ok kept }
{}

/// Nothing is read exactly where the grammar spells nothing, and the place is that of the first
/// byte after which no version can follow, or the length.
pub fn fault_is_first()
    ensures { (text : List ℕ) (fault : BadVersion)
        → (version_of text ≡ Err fault) ↔ IsFault text fault.place }
{}
