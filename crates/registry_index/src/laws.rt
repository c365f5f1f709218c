//! Laws of the definitions, each over all that they speak of.
ghost use Rattle.std.specs.Prelude.{◌≡◌, ◌↔◌, ℕ, List, [], IsTrue};
ghost use Rattle.bz_base.specs.ModuleDeclarations.{IsRegistry};
ghost use Rattle.bz_base.specs.declared.module_key.Key.{Key};
ghost use Rattle.bz_tree.specs.Places.{Files};
ghost use Rattle.registry_index.specs.AskedFiles.{Asked};
ghost use Rattle.registry_index.specs.KeptBases.{AreKept, bases_after, source_after};
ghost use Rattle.registry_index.specs.Registries.{is_registry};
ghost use Rattle.registry_index.specs.Sources.{source_of};

/// A text names a registry exactly where a module file may name it.
pub fn registries_are_those_of_module_files()
    ensures { (text : List ℕ) → IsTrue (is_registry text) ↔ IsRegistry text }
{}

/// Where the bases that were kept are those that the tree says, a source is what it is when nothing
/// was kept, and the bases kept then are such too.
pub fn kept_bases_change_no_source()
    ensures answer { (look : Files) (registry : List ℕ) (key : Key) (asked : Asked)
        → AreKept look asked.bases
        → (source_after look registry key asked).answer ≡ (source_of look registry key []).answer }
    ensures kept { (look : Files) (registry : List ℕ) (key : Key) (asked : Asked)
        → AreKept look asked.bases
        → AreKept look (bases_after look registry key asked) }
{}
