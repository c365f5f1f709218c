//! The methods of strings by their names, and their parameters.
ghost use Rattle.std.specs.Prelude.{◌≡◌};
ghost use Rattle.star_text.specs.MethodNames as spec;
ghost use Rattle.star_text.specs.MethodNames.{method_name, parameters_of};

use star_library::{Parameter, ParameterName, Ways};

#[derive(Clone, Copy, Debug, PartialEq, Eq)]
pub enum TextMethod {
    Capitalize,
    Count,
    Elems,
    Endswith,
    Find,
    Index,
    Isalnum,
    Isalpha,
    Isdigit,
    Islower,
    Isspace,
    Istitle,
    Isupper,
    Join,
    Lower,
    Lstrip,
    Partition,
    Removeprefix,
    Removesuffix,
    Replace,
    Rfind,
    Rindex,
    Rpartition,
    Rsplit,
    Rstrip,
    Split,
    Splitlines,
    Startswith,
    Strip,
    Title,
    Upper,
}

const ALL: [TextMethod; 31] = [
    TextMethod::Capitalize,
    TextMethod::Count,
    TextMethod::Elems,
    TextMethod::Endswith,
    TextMethod::Find,
    TextMethod::Index,
    TextMethod::Isalnum,
    TextMethod::Isalpha,
    TextMethod::Isdigit,
    TextMethod::Islower,
    TextMethod::Isspace,
    TextMethod::Istitle,
    TextMethod::Isupper,
    TextMethod::Join,
    TextMethod::Lower,
    TextMethod::Lstrip,
    TextMethod::Partition,
    TextMethod::Removeprefix,
    TextMethod::Removesuffix,
    TextMethod::Replace,
    TextMethod::Rfind,
    TextMethod::Rindex,
    TextMethod::Rpartition,
    TextMethod::Rsplit,
    TextMethod::Rstrip,
    TextMethod::Split,
    TextMethod::Splitlines,
    TextMethod::Startswith,
    TextMethod::Strip,
    TextMethod::Title,
    TextMethod::Upper,
];

impl TextMethod {
    /// The method of a name.
    #[tactic(auto, unfolding(crate::specs::MethodNames::all_methods))]
    pub fn of(name: &str) -> Option<TextMethod>
        ensures { result ≡ spec.method_of name.now }
    {
        method_among(&ALL, name)
    }

    /// The name under which it is called.
    #[tactic(auto, unfolding(crate::specs::MethodNames::method_name))]
    pub fn name(self) -> &'static str
        ensures { result.now ≡ method_name self }
    {
        match self {
            TextMethod::Capitalize => "capitalize",
            TextMethod::Count => "count",
            TextMethod::Elems => "elems",
            TextMethod::Endswith => "endswith",
            TextMethod::Find => "find",
            TextMethod::Index => "index",
            TextMethod::Isalnum => "isalnum",
            TextMethod::Isalpha => "isalpha",
            TextMethod::Isdigit => "isdigit",
            TextMethod::Islower => "islower",
            TextMethod::Isspace => "isspace",
            TextMethod::Istitle => "istitle",
            TextMethod::Isupper => "isupper",
            TextMethod::Join => "join",
            TextMethod::Lower => "lower",
            TextMethod::Lstrip => "lstrip",
            TextMethod::Partition => "partition",
            TextMethod::Removeprefix => "removeprefix",
            TextMethod::Removesuffix => "removesuffix",
            TextMethod::Replace => "replace",
            TextMethod::Rfind => "rfind",
            TextMethod::Rindex => "rindex",
            TextMethod::Rpartition => "rpartition",
            TextMethod::Rsplit => "rsplit",
            TextMethod::Rstrip => "rstrip",
            TextMethod::Split => "split",
            TextMethod::Splitlines => "splitlines",
            TextMethod::Startswith => "startswith",
            TextMethod::Strip => "strip",
            TextMethod::Title => "title",
            TextMethod::Upper => "upper",
        }
    }

    #[tactic(auto, unfolding(crate::specs::MethodNames::parameters_of))]
    pub(crate) fn parameters(self) -> &'static [Parameter]
        ensures { result.now ≡ parameters_of self }
    {
        match self {
            TextMethod::Lstrip | TextMethod::Rstrip | TextMethod::Strip => &STRIPPED,
            TextMethod::Removeprefix => &WITHOUT_PREFIX,
            TextMethod::Removesuffix => &WITHOUT_SUFFIX,
            TextMethod::Partition | TextMethod::Rpartition => &PARTED,
            TextMethod::Rsplit | TextMethod::Split => &SPLIT,
            TextMethod::Count
            | TextMethod::Endswith
            | TextMethod::Find
            | TextMethod::Index
            | TextMethod::Rfind
            | TextMethod::Rindex
            | TextMethod::Startswith => &SOUGHT,
            TextMethod::Join => &JOINED,
            TextMethod::Replace => &REPLACED,
            TextMethod::Splitlines => &LINED,
            _ => &[],
        }
    }
}

fn method_among(methods: &[TextMethod], name: &str) -> Option<TextMethod>
    ensures { result ≡ spec.method_among methods.now name.now }
{
    'looking: for method in methods {
        if method.name() == name {
            return Some(*method);
        }
    }
    None
}

const STRIPPED: [Parameter; 1] = [Parameter {
    name: ParameterName::Chars,
    needed: false,
    ways: Ways::Either,
}];

const WITHOUT_PREFIX: [Parameter; 1] = [Parameter {
    name: ParameterName::Prefix,
    needed: true,
    ways: Ways::Either,
}];

const WITHOUT_SUFFIX: [Parameter; 1] = [Parameter {
    name: ParameterName::Suffix,
    needed: true,
    ways: Ways::Either,
}];

const PARTED: [Parameter; 1] = [Parameter {
    name: ParameterName::Sep,
    needed: true,
    ways: Ways::Either,
}];

const SPLIT: [Parameter; 2] = [
    Parameter {
        name: ParameterName::Sep,
        needed: false,
        ways: Ways::Either,
    },
    Parameter {
        name: ParameterName::Maxsplit,
        needed: false,
        ways: Ways::Either,
    },
];

const JOINED: [Parameter; 1] = [Parameter {
    name: ParameterName::Elements,
    needed: true,
    ways: Ways::Either,
}];

const SOUGHT: [Parameter; 3] = [
    Parameter {
        name: ParameterName::Sub,
        needed: true,
        ways: Ways::Either,
    },
    Parameter {
        name: ParameterName::Start,
        needed: false,
        ways: Ways::Either,
    },
    Parameter {
        name: ParameterName::End,
        needed: false,
        ways: Ways::Either,
    },
];

const REPLACED: [Parameter; 3] = [
    Parameter {
        name: ParameterName::Old,
        needed: true,
        ways: Ways::Either,
    },
    Parameter {
        name: ParameterName::New,
        needed: true,
        ways: Ways::Either,
    },
    Parameter {
        name: ParameterName::Count,
        needed: false,
        ways: Ways::Either,
    },
];

const LINED: [Parameter; 1] = [Parameter {
    name: ParameterName::Keepends,
    needed: false,
    ways: Ways::Either,
}];
