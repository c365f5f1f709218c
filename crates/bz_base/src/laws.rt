//! What the definitions imply.
ghost use Rattle.std.specs.Prelude.{◌≡◌, ◌≢◌, ◌↔◌, ◌≤◌, ℕ, List, Err, Ok, IfOk, IsTrue};
ghost use Rattle.serde_json.specs.Data.{Data};
ghost use Rattle.bz_base.specs.Labels.{IsLabel};
ghost use Rattle.bz_base.specs.NormalPaths.{LeadsNowhere, is_normal};
ghost use Rattle.bz_base.specs.Paths.{bad_path, joined};
ghost use Rattle.bz_base.specs.PlainLabels.{is_label, not_plain};
ghost use Rattle.bz_base.specs.PlainReading.{is_good, plain_depth, plain_of};
ghost use Rattle.bz_base.specs.PlainTexts.{json_of};
ghost use Rattle.bz_base.specs.declared.labels.Label.{Label};
ghost use Rattle.bz_base.specs.declared.plain_values.Plain.{Plain};

/// The JSON of a good plain value is read back, where it is at most 16 deep.
pub fn written_is_read_back()
    ensures { (value : Plain)
        → IsTrue (is_good value)
        → plain_depth value ≤ 16
        → plain_of (json_of value) ≡ Ok value }
{}

/// What is read is a good plain value with that JSON, at most 16 deep.
pub fn read_was_written()
    ensures { (json : Data) (value : Plain) → plain_of json ≡ Ok value
        → (json_of value ≡ json) × (plain_depth value ≤ 16) × IsTrue (is_good value) }
{}

/// Nothing is read exactly where no good plain value at most 16 deep has that JSON.
pub fn nothing_is_read_where_nothing_was_written()
    ensures { (json : Data) → (plain_of json ≡ Err not_plain)
        ↔ ((value : Plain)
        → IsTrue (is_good value)
        → plain_depth value ≤ 16
        → json_of value ≢ json) }
{}

/// A label is good exactly where its parts are what a label's may be.
pub fn good_label_stands()
    ensures { (label : Label) → IsTrue (is_label label) ↔ IsLabel label }
{}

/// The path to which a text leads is normal, whatever path it is read at.
pub fn joins_are_normal()
    ensures { (path text : List ℕ) → IfOk (joined path text) (λ there. IsTrue (is_normal there)) }
{}

/// A text leads to no path exactly where it has a NUL, or some front of it has more `..` than names
/// behind `/`.
pub fn what_leads_nowhere_is_refused()
    ensures { (path text : List ℕ) → (joined path text ≡ Err bad_path) ↔ LeadsNowhere path text }
{}
