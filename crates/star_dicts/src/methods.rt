//! The methods of dictionaries by their names, and their parameters.
ghost use Rattle.std.specs.Prelude.{◌≡◌};
ghost use Rattle.star_dicts.specs.MethodNames as spec;
ghost use Rattle.star_dicts.specs.MethodNames.{method_name, parameters_of};

use star_library::{Parameter, ParameterName, Ways};

#[derive(Clone, Copy, Debug, PartialEq, Eq)]
pub enum DictMethod {
    Clear,
    Get,
    Items,
    Keys,
    Pop,
    Popitem,
    Setdefault,
    Update,
    Values,
}

const ALL: [DictMethod; 9] = [
    DictMethod::Clear,
    DictMethod::Get,
    DictMethod::Items,
    DictMethod::Keys,
    DictMethod::Pop,
    DictMethod::Popitem,
    DictMethod::Setdefault,
    DictMethod::Update,
    DictMethod::Values,
];

impl DictMethod {
    /// The method of a name.
    #[tactic(auto, unfolding(crate::specs::MethodNames::all_methods))]
    pub fn of(name: &str) -> Option<DictMethod>
        ensures { result ≡ spec.method_of name.now }
    {
        method_among(&ALL, name)
    }

    /// The name under which it is called.
    #[tactic(auto, unfolding(crate::specs::MethodNames::method_name))]
    pub fn name(self) -> &'static str
        ensures { result.now ≡ method_name self }
    {
        match self {
            DictMethod::Clear => "clear",
            DictMethod::Get => "get",
            DictMethod::Items => "items",
            DictMethod::Keys => "keys",
            DictMethod::Pop => "pop",
            DictMethod::Popitem => "popitem",
            DictMethod::Setdefault => "setdefault",
            DictMethod::Update => "update",
            DictMethod::Values => "values",
        }
    }

    #[tactic(auto, unfolding(crate::specs::MethodNames::parameters_of))]
    pub(crate) fn parameters(self) -> &'static [Parameter]
        ensures { result.now ≡ parameters_of self }
    {
        match self {
            DictMethod::Get | DictMethod::Pop | DictMethod::Setdefault => &SOUGHT,
            _ => &[],
        }
    }
}

fn method_among(methods: &[DictMethod], name: &str) -> Option<DictMethod>
    ensures { result ≡ spec.method_among methods.now name.now }
{
    'looking: for method in methods {
        if method.name() == name {
            return Some(*method);
        }
    }
    None
}

const SOUGHT: [Parameter; 2] = [
    Parameter {
        name: ParameterName::Key,
        needed: true,
        ways: Ways::Either,
    },
    Parameter {
        name: ParameterName::Default,
        needed: false,
        ways: Ways::Either,
    },
];
