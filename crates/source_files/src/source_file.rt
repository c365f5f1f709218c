//! What a `source.json` says.
ghost use Rattle.std.specs.Prelude.{◌≡◌, Some, option_map};
ghost use Rattle.bz_text.specs.Answers.{Gives};
ghost use Rattle.serde_json.specs.View.{view};
ghost use Rattle.serde_json.specs.Find.{get};
ghost use Rattle.source_files.specs.SourceFiles as spec;
ghost use Rattle.source_files.specs.SourceFiles.{json_of, local_source, object_of, source_in};
ghost use Rattle.source_files.specs.SourceFiles.{source_by_type, source_of, source_of_type};
ghost use Rattle.source_files.specs.SourceFiles.{text_under};

use crate::json_object::{is_object, read_json, text_at};
use bz_base::{May, Miss, Txt};
use serde_json::Value;
use std::alloc::Global;

/// The file doesn't say where a source is.
#[derive(Clone, Copy, Debug, PartialEq, Eq)]
pub struct BadSource;

/// Where the source of a module is: in a directory, or elsewhere.
#[derive(Debug, Drop)]
pub enum SourceFile {
    Local(Txt),
    Remote,
}

/// What the bytes of a `source.json` say.
#[tactic(auto, unfolding(crate::specs::SourceFiles::source_in))]
pub fn read_source(alloc: Global, bytes: &[u8]) -> May<SourceFile, BadSource>
    ensures { Gives (source_in bytes.now) result }
{
    match read_json(alloc, bytes) {
        Ok(json) => source(alloc, &json),
        Err(miss) => Err(miss),
    }
}

fn source(alloc: Global, json: &Value) -> May<SourceFile, BadSource>
    ensures { Gives (source_of (object_of (Some (view json.now)))) result }
{
    if !is_object(json) {
        return Err(Miss::Because(BadSource));
    }
    match json.get("type") {
        None => Ok(SourceFile::Remote),
        Some(Value::String(type_name)) => typed(alloc, type_name.as_str(), json),
        Some(_) => Err(Miss::Because(BadSource)),
    }
}

fn typed(alloc: Global, type_name: &str, json: &Value) -> May<SourceFile, BadSource>
    ensures { Gives (source_of_type type_name.now (view json.now)) result }
{
    match type_name {
        "archive" | "git_repository" => Ok(SourceFile::Remote),
        "local_path" => local(alloc, text_at(json, "path")),
        _ => Err(Miss::Because(BadSource)),
    }
}

fn local(alloc: Global, path: Option<&str>) -> May<SourceFile, BadSource>
    ensures { Gives (local_source (option_map (λ text. text.now) path.entry)) result }
{
    match path {
        Some(path) => Ok(SourceFile::Local(Txt::of(alloc, path)?)),
        None => Err(Miss::Because(BadSource)),
    }
}
