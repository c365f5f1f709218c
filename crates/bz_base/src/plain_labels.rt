//! Labels read from the text that is printed of them.
ghost use Rattle.std.specs.Prelude.{◌≡◌, None, Some, IfNone, IfSome};
ghost use Rattle.bz_text.specs.Answers.{Gives};
ghost use Rattle.bz_text.specs.Cuts.{cut, cut_at_root};
ghost use Rattle.bz_base.specs.PlainLabels;
ghost use Rattle.bz_base.specs.PlainLabels.{behind_marks, good_label, label_of, rooted_label};
ghost use Rattle.bz_base.specs.PlainLabels.{target_label};

use crate::label_names::{is_canonical, is_package, is_segmented};
use crate::labels::Label;
use bz_text::{May, Miss, Txt, cut_at, cut_at_double_slash, text_behind};
use std::alloc::Global;

/// The JSON is that of no plain value, or of one that is too deep.
#[derive(Clone, Copy, Debug, PartialEq, Eq)]
pub struct NotPlain;

/// The label that is printed as this text, `@@REPO//PACKAGE:NAME`; `NotPlain` where there is none.
#[tactic(auto, unfolding(crate::specs::PlainLabels::label_of))]
pub fn read_label(alloc: Global, text: &str) -> May<Label, NotPlain>
    ensures { Gives (label_of text.now) result }
{
    match text_behind_marks(text) {
        Some(rest) => read_rooted(alloc, rest),
        None => Err(Miss::Because(NotPlain)),
    }
}

fn text_behind_marks(text: &str) -> Option<&str>
    ensures none { IfNone result (behind_marks text.now ≡ None) }
    ensures some { IfSome result (λ rest. behind_marks text.now ≡ Some rest.now) }
{
    let rest = text_behind(text, '@')?;
    text_behind(rest, '@')
}

fn read_rooted(alloc: Global, text: &str) -> May<Label, NotPlain>
    ensures { Gives (rooted_label (cut_at_root text.now)) result }
{
    match cut_at_double_slash(text) {
        Some((repo, target)) => read_target(alloc, repo, target),
        None => Err(Miss::Because(NotPlain)),
    }
}

fn read_target(alloc: Global, repo: &str, target: &str) -> May<Label, NotPlain>
    ensures { Gives (target_label repo.now (cut 58 target.now)) result }
{
    match cut_at(target, ':') {
        Some((package, name)) => read_parts(alloc, repo, package, name),
        None => Err(Miss::Because(NotPlain)),
    }
}

fn read_parts(alloc: Global, repo: &str, package: &str, name: &str) -> May<Label, NotPlain>
    ensures { Gives (good_label (record { repo = repo.now; «package» = «package».now; name = name.now }))
        result }
{
    if !are_parts(repo, package, name) {
        return Err(Miss::Because(NotPlain));
    }
    Ok(Label {
        repo: Txt::of(alloc, repo)?,
        package: Txt::of(alloc, package)?,
        name: Txt::of(alloc, name)?,
    })
}

fn are_parts(repo: &str, package: &str, name: &str) -> bool
    ensures { result ≡ PlainLabels.is_label (record {
      repo = repo.now;
      «package» = «package».now;
      name =
          name.now;
    }) }
{
    is_canonical(repo)
        && is_package(package)
        && (is_segmented(name) || (name == "" && package == ""))
}
