//! The functions of the library by their names, and their parameters.
ghost use Rattle.std.specs.Prelude.{◌≡◌};
ghost use Rattle.star_functions.specs.FunctionNames as spec;
ghost use Rattle.star_functions.specs.FunctionNames.{function_name, parameters_of};

use star_library::{Parameter, ParameterName, Ways};

#[derive(Clone, Copy, Debug, PartialEq, Eq)]
pub enum LibraryFunction {
    Abs,
    All,
    Any,
    Bool,
    Dict,
    Enumerate,
    Int,
    Len,
    List,
    Max,
    Min,
    Print,
    Range,
    Repr,
    Reversed,
    Sorted,
    Str,
    Tuple,
    Type,
    Zip,
}

const ALL: [LibraryFunction; 20] = [
    LibraryFunction::Abs,
    LibraryFunction::All,
    LibraryFunction::Any,
    LibraryFunction::Bool,
    LibraryFunction::Dict,
    LibraryFunction::Enumerate,
    LibraryFunction::Int,
    LibraryFunction::Len,
    LibraryFunction::List,
    LibraryFunction::Max,
    LibraryFunction::Min,
    LibraryFunction::Print,
    LibraryFunction::Range,
    LibraryFunction::Repr,
    LibraryFunction::Reversed,
    LibraryFunction::Sorted,
    LibraryFunction::Str,
    LibraryFunction::Tuple,
    LibraryFunction::Type,
    LibraryFunction::Zip,
];

impl LibraryFunction {
    /// The function of a name.
    #[tactic(auto, unfolding(crate::specs::FunctionNames::all_functions))]
    pub fn of(name: &str) -> Option<LibraryFunction>
        ensures { result ≡ spec.function_of name.now }
    {
        function_among(&ALL, name)
    }

    /// The name under which it is called.
    #[tactic(auto, unfolding(crate::specs::FunctionNames::function_name))]
    pub fn name(self) -> &'static str
        ensures { result.now ≡ function_name self }
    {
        match self {
            LibraryFunction::Abs => "abs",
            LibraryFunction::All => "all",
            LibraryFunction::Any => "any",
            LibraryFunction::Bool => "bool",
            LibraryFunction::Dict => "dict",
            LibraryFunction::Enumerate => "enumerate",
            LibraryFunction::Int => "int",
            LibraryFunction::Len => "len",
            LibraryFunction::List => "list",
            LibraryFunction::Max => "max",
            LibraryFunction::Min => "min",
            LibraryFunction::Print => "print",
            LibraryFunction::Range => "range",
            LibraryFunction::Repr => "repr",
            LibraryFunction::Reversed => "reversed",
            LibraryFunction::Sorted => "sorted",
            LibraryFunction::Str => "str",
            LibraryFunction::Tuple => "tuple",
            LibraryFunction::Type => "type",
            LibraryFunction::Zip => "zip",
        }
    }

    #[tactic(auto, unfolding(crate::specs::FunctionNames::parameters_of))]
    pub(crate) fn parameters(self) -> &'static [Parameter]
        ensures { result.now ≡ parameters_of self }
    {
        match self {
            LibraryFunction::All | LibraryFunction::Any => &ELEMENTS,
            LibraryFunction::Bool | LibraryFunction::List | LibraryFunction::Tuple => {
                &VALUE_OR_NONE
            }
            LibraryFunction::Enumerate => &NUMBERED,
            LibraryFunction::Int => &INTEGER,
            LibraryFunction::Abs
            | LibraryFunction::Len
            | LibraryFunction::Repr
            | LibraryFunction::Str
            | LibraryFunction::Type => &VALUE,
            LibraryFunction::Reversed => &SEQUENCE,
            LibraryFunction::Sorted => &SORTED,
            _ => &[],
        }
    }
}

fn function_among(functions: &[LibraryFunction], name: &str) -> Option<LibraryFunction>
    ensures { result ≡ spec.function_among functions.now name.now }
{
    'looking: for function in functions {
        if function.name() == name {
            return Some(*function);
        }
    }
    None
}

const VALUE: [Parameter; 1] = [Parameter {
    name: ParameterName::X,
    needed: true,
    ways: Ways::Either,
}];

const ELEMENTS: [Parameter; 1] = [Parameter {
    name: ParameterName::Elements,
    needed: true,
    ways: Ways::Either,
}];

const VALUE_OR_NONE: [Parameter; 1] = [Parameter {
    name: ParameterName::X,
    needed: false,
    ways: Ways::Either,
}];

const NUMBERED: [Parameter; 2] = [
    Parameter {
        name: ParameterName::List,
        needed: true,
        ways: Ways::Either,
    },
    Parameter {
        name: ParameterName::Start,
        needed: false,
        ways: Ways::Either,
    },
];

const INTEGER: [Parameter; 2] = [
    Parameter {
        name: ParameterName::X,
        needed: true,
        ways: Ways::Either,
    },
    Parameter {
        name: ParameterName::Base,
        needed: false,
        ways: Ways::Either,
    },
];

const SEQUENCE: [Parameter; 1] = [Parameter {
    name: ParameterName::Sequence,
    needed: true,
    ways: Ways::Either,
}];

const SORTED: [Parameter; 3] = [
    Parameter {
        name: ParameterName::X,
        needed: true,
        ways: Ways::Either,
    },
    Parameter {
        name: ParameterName::Key,
        needed: false,
        ways: Ways::Either,
    },
    Parameter {
        name: ParameterName::Reverse,
        needed: false,
        ways: Ways::Either,
    },
];
