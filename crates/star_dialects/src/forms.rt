//! The forms that a dialect may refuse.
ghost use Rattle.std.specs.Prelude.{◌≡◌};
ghost use Rattle.star_dialects.specs.Forms.{form_text};

#[derive(Clone, Copy, Debug, PartialEq, Eq)]
pub enum Form {
    If,
    For,
    Rebinding,
    Load,
    Def,
    Lambda,
    Star,
    StarStar,
}

/// A form that a file may not have, and the line on which it begins.
#[derive(Clone, Copy, Debug, PartialEq, Eq)]
pub struct Refused {
    pub line: u64,
    pub form: Form,
}

impl Form {
    /// As it is told.
    pub fn text(self) -> &'static str
        ensures { result.now ≡ form_text self }
    {
        match self {
            Form::If => "if",
            Form::For => "for",
            Form::Rebinding => "rebinding",
            Form::Load => "load",
            Form::Def => "def",
            Form::Lambda => "lambda",
            Form::Star => "*",
            Form::StarStar => "**",
        }
    }
}
