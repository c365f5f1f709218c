//! The names of the library's parameters.
ghost use Rattle.std.specs.Prelude.{◌≡◌};
ghost use Rattle.star_library.specs.ParameterNames.{name_text};

#[derive(Clone, Copy, Debug, PartialEq, Eq)]
pub enum ParameterName {
    Base,
    Chars,
    Count,
    Default,
    Elements,
    End,
    I,
    Index,
    Item,
    Keepends,
    Key,
    List,
    Maxsplit,
    Name,
    New,
    Old,
    Prefix,
    Reverse,
    Sep,
    Sequence,
    Start,
    Sub,
    Suffix,
    X,
}

impl ParameterName {
    /// The name as it is written at a call.
    #[tactic(auto, unfolding(crate::specs::ParameterNames::name_text))]
    pub fn text(self) -> &'static str
        ensures { result.now ≡ name_text self }
    {
        match self {
            ParameterName::Base => "base",
            ParameterName::Chars => "chars",
            ParameterName::Count => "count",
            ParameterName::Default => "default",
            ParameterName::Elements => "elements",
            ParameterName::End => "end",
            ParameterName::I => "i",
            ParameterName::Index => "index",
            ParameterName::Item => "item",
            ParameterName::Keepends => "keepends",
            ParameterName::Key => "key",
            ParameterName::List => "list",
            ParameterName::Maxsplit => "maxsplit",
            ParameterName::Name => "name",
            ParameterName::New => "new",
            ParameterName::Old => "old",
            ParameterName::Prefix => "prefix",
            ParameterName::Reverse => "reverse",
            ParameterName::Sep => "sep",
            ParameterName::Sequence => "sequence",
            ParameterName::Start => "start",
            ParameterName::Sub => "sub",
            ParameterName::Suffix => "suffix",
            ParameterName::X => "x",
        }
    }
}
