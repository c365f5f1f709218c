//! The methods of lists by their names, and their parameters.
ghost use Rattle.std.specs.Prelude.{◌≡◌};
ghost use Rattle.star_lists.specs.MethodNames as spec;
ghost use Rattle.star_lists.specs.MethodNames.{method_name, parameters_of};

use star_library::{Parameter, ParameterName, Ways};

#[derive(Clone, Copy, Debug, PartialEq, Eq)]
pub enum ListMethod {
    Append,
    Clear,
    Extend,
    Index,
    Insert,
    Pop,
    Remove,
}

const ALL: [ListMethod; 7] = [
    ListMethod::Append,
    ListMethod::Clear,
    ListMethod::Extend,
    ListMethod::Index,
    ListMethod::Insert,
    ListMethod::Pop,
    ListMethod::Remove,
];

impl ListMethod {
    /// The method of a name.
    #[tactic(auto, unfolding(crate::specs::MethodNames::all_methods))]
    pub fn of(name: &str) -> Option<ListMethod>
        ensures { result ≡ spec.method_of name.now }
    {
        method_among(&ALL, name)
    }

    /// The name under which it is called.
    #[tactic(auto, unfolding(crate::specs::MethodNames::method_name))]
    pub fn name(self) -> &'static str
        ensures { result.now ≡ method_name self }
    {
        match self {
            ListMethod::Append => "append",
            ListMethod::Clear => "clear",
            ListMethod::Extend => "extend",
            ListMethod::Index => "index",
            ListMethod::Insert => "insert",
            ListMethod::Pop => "pop",
            ListMethod::Remove => "remove",
        }
    }

    #[tactic(auto, unfolding(crate::specs::MethodNames::parameters_of))]
    pub(crate) fn parameters(self) -> &'static [Parameter]
        ensures { result.now ≡ parameters_of self }
    {
        match self {
            ListMethod::Append => &APPENDED,
            ListMethod::Clear => &[],
            ListMethod::Extend => &EXTENDED,
            ListMethod::Index => &SOUGHT,
            ListMethod::Insert => &INSERTED,
            ListMethod::Pop => &POPPED,
            ListMethod::Remove => &REMOVED,
        }
    }
}

fn method_among(methods: &[ListMethod], name: &str) -> Option<ListMethod>
    ensures { result ≡ spec.method_among methods.now name.now }
{
    'looking: for method in methods {
        if method.name() == name {
            return Some(*method);
        }
    }
    None
}

const APPENDED: [Parameter; 1] = [Parameter {
    name: ParameterName::Item,
    needed: true,
    ways: Ways::Either,
}];

const EXTENDED: [Parameter; 1] = [Parameter {
    name: ParameterName::Elements,
    needed: true,
    ways: Ways::Either,
}];

const SOUGHT: [Parameter; 3] = [
    Parameter {
        name: ParameterName::X,
        needed: true,
        ways: Ways::Either,
    },
    Parameter {
        name: ParameterName::Start,
        needed: false,
        ways: Ways::Either,
    },
    Parameter {
        name: ParameterName::End,
        needed: false,
        ways: Ways::Either,
    },
];

const INSERTED: [Parameter; 2] = [
    Parameter {
        name: ParameterName::Index,
        needed: true,
        ways: Ways::Either,
    },
    Parameter {
        name: ParameterName::Item,
        needed: true,
        ways: Ways::Either,
    },
];

const POPPED: [Parameter; 1] = [Parameter {
    name: ParameterName::I,
    needed: false,
    ways: Ways::Either,
}];

const REMOVED: [Parameter; 1] = [Parameter {
    name: ParameterName::X,
    needed: true,
    ways: Ways::Either,
}];
