//! What a label's text means in its home.
ghost use Rattle.std.specs.Prelude.{◌≡◌, IfOk, IsTrue, List, ℕ, Err};
ghost use Rattle.bz_text.specs.Answers.{Gives};
ghost use Rattle.bz_text.specs.declared.memory.Miss.TheVariants.{Because};
ghost use Rattle.bz_label.specs.Grammar.{SpellsLabel};
ghost use Rattle.bz_label.specs.Resolution.{Hides, Resolves, canonical_of, placed, resolved};
ghost use Rattle.bz_label.specs.Resolution.{visible};
ghost use Rattle.bz_base.specs.Labels.{IsLabel};
ghost use Rattle.bz_label.specs.Mappings.{are_names, found};
ghost use Rattle.bz_label.specs.declared.label_text.LabelText.{LabelText as Parts};

use crate::label_text::{LabelText, RepoPart};
use crate::mapping::Mapping;
use bz_base::{Label, May, Miss, Txt};
use std::alloc::Global;

/// Why a text names nothing: it is no label, or its apparent name is none of the mapping.
#[derive(Debug, Drop)]
pub enum LabelMiss {
    BadLabel,
    NotVisible { apparent: Txt },
}

/// The label that a text means in its home, under the mapping of the home's repository.
pub fn resolve(alloc: Global, map: &Mapping, home: &Label, text: &str) -> May<Label, LabelMiss>
    ensures exact { Gives (resolved map.now home.now text.now) result }
    ensures label { IfOk result (λ label. Resolves map.now home.now text.now label) }
    ensures good { IsTrue (are_names map.now) → IsLabel home.now → IfOk result IsLabel }
    ensures bad_label { result ≡ Err (Because LabelMiss.BadLabel) → (parts : Parts) → ¬ SpellsLabel text.now parts }
    ensures not_visible { (apparent : List ℕ)
        → result ≡ Err (Because (LabelMiss.NotVisible apparent))
        → Hides map.now text.now apparent }
{
    meaning(alloc, map, home, text)
}

fn meaning(alloc: Global, map: &Mapping, home: &Label, text: &str) -> May<Label, LabelMiss>
    ensures { Gives (resolved map.now home.now text.now) result }
{
    match LabelText::parse(alloc, text) {
        Ok(parts) => place(alloc, map, home, parts),
        Err(Miss::Because(_)) => Err(Miss::Because(LabelMiss::BadLabel)),
        Err(Miss::OutOfMemory) => Err(Miss::OutOfMemory),
    }
}

fn place(alloc: Global, map: &Mapping, home: &Label, parts: LabelText) -> May<Label, LabelMiss>
    ensures { Gives (placed home.now parts (canonical_of map.now home.now parts.repo)) result }
{
    let LabelText {
        repo,
        package,
        name,
    } = parts;
    let repo = canonical_repo(alloc, map, home, repo)?;
    let package = match package {
        Some(package) => package,
        None => home.package.copy(alloc)?,
    };
    Ok(Label {
        repo,
        package,
        name,
    })
}

fn canonical_repo(alloc: Global, map: &Mapping, home: &Label, repo: RepoPart) -> May<Txt, LabelMiss>
    ensures { Gives (canonical_of map.now home.now repo) result }
{
    match repo {
        RepoPart::Home => Ok(home.repo.copy(alloc)?),
        RepoPart::Apparent(apparent) => visible_repo(alloc, map, apparent),
        RepoPart::Canonical(canonical) => Ok(canonical),
    }
}

fn visible_repo(alloc: Global, map: &Mapping, apparent: Txt) -> May<Txt, LabelMiss>
    ensures { Gives (visible apparent (found apparent map.now)) result }
{
    match map.get(apparent.as_str()) {
        Some(canonical) => Ok(canonical.copy(alloc)?),
        None => Err(Miss::Because(LabelMiss::NotVisible { apparent })),
    }
}
