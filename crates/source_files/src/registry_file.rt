//! What a `bazel_registry.json` says.
ghost use Rattle.std.specs.Prelude.{◌≡◌, Some, option_map};
ghost use Rattle.bz_text.specs.Answers.{Gives};
ghost use Rattle.serde_json.specs.View.{view};
ghost use Rattle.source_files.specs.SourceFiles.{base_in, base_of, base_of_text, object_of};

use crate::json_object::{is_object, read_json};
use crate::source_file::BadSource;
use bz_base::{May, Miss, Txt};
use serde_json::Value;
use std::alloc::Global;

/// The directory from which a registry's local paths begin, where its file names one.
#[tactic(auto, unfolding(crate::specs::SourceFiles::base_in))]
pub fn read_base(alloc: Global, bytes: &[u8]) -> May<Option<Txt>, BadSource>
    ensures { Gives (base_in bytes.now) result }
{
    match read_json(alloc, bytes) {
        Ok(json) => base(alloc, &json),
        Err(miss) => Err(miss),
    }
}

fn base(alloc: Global, json: &Value) -> May<Option<Txt>, BadSource>
    ensures { Gives (base_of (object_of (Some (view json.now)))) result }
{
    if !is_object(json) {
        return Err(Miss::Because(BadSource));
    }
    match json.get("module_base_path") {
        None => Ok(None),
        Some(base) => base_text(alloc, base.as_str()),
    }
}

fn base_text(alloc: Global, base: Option<&str>) -> May<Option<Txt>, BadSource>
    ensures { Gives (base_of_text (option_map (λ text. text.now) base.entry)) result }
{
    match base {
        Some(base) => Ok(Some(Txt::of(alloc, base)?)),
        None => Err(Miss::Because(BadSource)),
    }
}
