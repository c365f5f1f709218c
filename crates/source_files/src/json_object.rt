//! The JSON object of a file.
ghost use Rattle.std.specs.Prelude.{◌≡◌, None, Some, IfOk, OnErr, IsErrOf, option_map};
ghost use Rattle.bz_text.specs.Answers.{Gives};
ghost use Rattle.bz_text.specs.declared.memory.Miss.TheVariants.{Because};
ghost use Rattle.serde_json.specs.View.{view};
ghost use Rattle.source_files.specs.SourceFiles as spec;
ghost use Rattle.source_files.specs.SourceFiles.{bad_source, json_of, text_under};

use crate::source_file::BadSource;
use bz_base::{May, Miss};
use serde_json::Value;
use std::alloc::Global;

/// The value of a file's bytes.
#[tactic(auto, using(crate::proofs::Json::value_read, crate::proofs::Json::none_read))]
pub(crate) fn read_json(alloc: Global, bytes: &[u8]) -> May<Value, BadSource>
    ensures value { IfOk result (λ json. json_of bytes.now ≡ Some (view json)) }
    ensures none { IsErrOf result (Because bad_source) → json_of bytes.now ≡ None }
{
    match Value::from_slice(alloc, bytes) {
        Ok(json) => Ok(json),
        Err(error) if error.is_memory() => Err(Miss::OutOfMemory),
        Err(_) => Err(Miss::Because(BadSource)),
    }
}

pub(crate) fn is_object(json: &Value) -> bool
    ensures { result ≡ spec.is_object (view json.now) }
{
    matches!(json, Value::Object(_))
}

/// The text under a name.
pub(crate) fn text_at<'a>(json: &'a Value, name: &str) -> Option<&'a str>
    ensures { option_map (λ text. text.now) result ≡ text_under name.now (view json.now) }
{
    json.get(name)?.as_str()
}
