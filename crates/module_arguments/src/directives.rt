//! The directives by their names, and the table of their parameters.
ghost use Rattle.std.specs.Prelude.{◌≡◌};
ghost use Rattle.module_arguments.specs.Directives as spec;

use crate::parameters::{Kind, NameKind, Parameter, ParameterName, TextKind};
use star_library::Ways;

/// A directive of a module file.
#[derive(Clone, Copy, PartialEq, Eq)]
pub enum Directive {
    ArchiveOverride,
    BazelDep,
    GitOverride,
    Include,
    InjectRepo,
    LocalPathOverride,
    Module,
    MultipleVersionOverride,
    OverrideRepo,
    RegisterExecutionPlatforms,
    RegisterToolchains,
    SingleVersionOverride,
    UseExtension,
    UseRepo,
    UseRepoRule,
}

/// How many arguments may be given by position, and whether further ones may be given.
#[derive(Clone, Copy)]
pub struct Shape {
    pub positional: usize,
    pub more_positional: bool,
    pub more_named: bool,
}

impl Shape {
    const fn of(positional: usize, more_positional: bool, more_named: bool) -> Shape
        ensures { result ≡ spec.shape positional more_positional more_named }
    {
        Shape {
            positional,
            more_positional,
            more_named,
        }
    }
}

const ALL: [Directive; 15] = [
    Directive::ArchiveOverride,
    Directive::BazelDep,
    Directive::GitOverride,
    Directive::Include,
    Directive::InjectRepo,
    Directive::LocalPathOverride,
    Directive::Module,
    Directive::MultipleVersionOverride,
    Directive::OverrideRepo,
    Directive::RegisterExecutionPlatforms,
    Directive::RegisterToolchains,
    Directive::SingleVersionOverride,
    Directive::UseExtension,
    Directive::UseRepo,
    Directive::UseRepoRule,
];

impl Directive {
    /// The directive of a name.
    #[tactic(auto, unfolding(crate::specs::Directives::all_directives))]
    pub fn of(name: &str) -> Option<Directive>
        ensures { result ≡ spec.directive_of name.now }
    {
        directive_among(&ALL, name)
    }

    /// The name under which it is called.
    #[tactic(auto, unfolding(crate::specs::Directives::directive_name))]
    pub fn name(self) -> &'static str
        ensures { result.now ≡ spec.directive_name self }
    {
        match self {
            Directive::ArchiveOverride => "archive_override",
            Directive::BazelDep => "bazel_dep",
            Directive::GitOverride => "git_override",
            Directive::Include => "include",
            Directive::InjectRepo => "inject_repo",
            Directive::LocalPathOverride => "local_path_override",
            Directive::Module => "module",
            Directive::MultipleVersionOverride => "multiple_version_override",
            Directive::OverrideRepo => "override_repo",
            Directive::RegisterExecutionPlatforms => "register_execution_platforms",
            Directive::RegisterToolchains => "register_toolchains",
            Directive::SingleVersionOverride => "single_version_override",
            Directive::UseExtension => "use_extension",
            Directive::UseRepo => "use_repo",
            Directive::UseRepoRule => "use_repo_rule",
        }
    }

    /// Its parameters in order.
    #[tactic(auto, unfolding(crate::specs::Directives::parameters_of))]
    pub fn parameters(self) -> &'static [Parameter]
        ensures { result.now ≡ spec.parameters_of self }
    {
        match self {
            Directive::ArchiveOverride => &OVERRIDDEN,
            Directive::BazelDep => &BAZEL_DEP,
            Directive::GitOverride => &OVERRIDDEN,
            Directive::Include => &[],
            Directive::InjectRepo => &IMPORTED,
            Directive::LocalPathOverride => &LOCAL_PATH_OVERRIDE,
            Directive::Module => &MODULE,
            Directive::MultipleVersionOverride => &MULTIPLE_VERSION_OVERRIDE,
            Directive::OverrideRepo => &IMPORTED,
            Directive::RegisterExecutionPlatforms => &REGISTERED,
            Directive::RegisterToolchains => &REGISTERED,
            Directive::SingleVersionOverride => &SINGLE_VERSION_OVERRIDE,
            Directive::UseExtension => &USE_EXTENSION,
            Directive::UseRepo => &IMPORTED,
            Directive::UseRepoRule => &USE_REPO_RULE,
        }
    }

    /// Which arguments it takes.
    #[tactic(auto, unfolding(crate::specs::Directives::shape_of))]
    pub fn shape(self) -> Shape
        ensures { result ≡ spec.shape_of self }
    {
        match self {
            Directive::ArchiveOverride => Shape::of(1, false, true),
            Directive::BazelDep => Shape::of(5, false, false),
            Directive::GitOverride => Shape::of(1, false, true),
            Directive::Include => Shape::of(0, true, true),
            Directive::InjectRepo => Shape::of(1, true, true),
            Directive::LocalPathOverride => Shape::of(2, false, false),
            Directive::Module => Shape::of(5, false, false),
            Directive::MultipleVersionOverride => Shape::of(3, false, false),
            Directive::OverrideRepo => Shape::of(1, true, true),
            Directive::RegisterExecutionPlatforms => Shape::of(0, true, false),
            Directive::RegisterToolchains => Shape::of(0, true, false),
            Directive::SingleVersionOverride => Shape::of(6, false, false),
            Directive::UseExtension => Shape::of(2, false, false),
            Directive::UseRepo => Shape::of(1, true, true),
            Directive::UseRepoRule => Shape::of(2, false, false),
        }
    }
}

/// The parameters of a call that declares a repository.
#[tactic(auto, unfolding(crate::specs::Directives::repository_parameters))]
pub fn repository_parameters() -> &'static [Parameter]
    ensures { result.now ≡ spec.repository_parameters }
{
    &REPOSITORY
}

/// What a call takes whose arguments are attributes: named ones alone.
pub fn attribute_shape() -> Shape
    ensures { result ≡ spec.attribute_shape }
{
    Shape::of(0, false, true)
}

fn directive_among(directives: &[Directive], name: &str) -> Option<Directive>
    ensures { result ≡ spec.directive_among directives.now name.now }
{
    'looking: for directive in directives {
        if directive.name() == name {
            return Some(*directive);
        }
    }
    None
}

const MODULE: [Parameter; 5] = [
    Parameter {
        name: ParameterName::Name,
        needed: false,
        ways: Ways::Either,
        kind: Kind::Text(TextKind::Name(NameKind::Own)),
    },
    Parameter {
        name: ParameterName::Version,
        needed: false,
        ways: Ways::Either,
        kind: Kind::Text(TextKind::Version),
    },
    Parameter {
        name: ParameterName::CompatibilityLevel,
        needed: false,
        ways: Ways::Either,
        kind: Kind::Level,
    },
    Parameter {
        name: ParameterName::RepoName,
        needed: false,
        ways: Ways::Either,
        kind: Kind::Text(TextKind::Name(NameKind::Repository)),
    },
    Parameter {
        name: ParameterName::BazelCompatibility,
        needed: false,
        ways: Ways::Either,
        kind: Kind::Texts,
    },
];

const BAZEL_DEP: [Parameter; 5] = [
    Parameter {
        name: ParameterName::Name,
        needed: true,
        ways: Ways::Either,
        kind: Kind::Text(TextKind::Name(NameKind::Module)),
    },
    Parameter {
        name: ParameterName::Version,
        needed: false,
        ways: Ways::Either,
        kind: Kind::Text(TextKind::Version),
    },
    Parameter {
        name: ParameterName::MaxCompatibilityLevel,
        needed: false,
        ways: Ways::Either,
        kind: Kind::NoMaximum,
    },
    Parameter {
        name: ParameterName::RepoName,
        needed: false,
        ways: Ways::Either,
        kind: Kind::TextOrNone(TextKind::Name(NameKind::Repository)),
    },
    Parameter {
        name: ParameterName::DevDependency,
        needed: false,
        ways: Ways::Either,
        kind: Kind::Flag,
    },
];

const USE_EXTENSION: [Parameter; 4] = [
    Parameter {
        name: ParameterName::ExtensionBzlFile,
        needed: true,
        ways: Ways::Either,
        kind: Kind::Text(TextKind::Any),
    },
    Parameter {
        name: ParameterName::ExtensionName,
        needed: true,
        ways: Ways::Either,
        kind: Kind::Text(TextKind::Name(NameKind::Exported)),
    },
    Parameter {
        name: ParameterName::DevDependency,
        needed: false,
        ways: Ways::Name,
        kind: Kind::Flag,
    },
    Parameter {
        name: ParameterName::Isolate,
        needed: false,
        ways: Ways::Name,
        kind: Kind::Unset,
    },
];

const USE_REPO_RULE: [Parameter; 2] = [
    Parameter {
        name: ParameterName::RepoRuleBzlFile,
        needed: true,
        ways: Ways::Either,
        kind: Kind::Text(TextKind::Any),
    },
    Parameter {
        name: ParameterName::RepoRuleName,
        needed: true,
        ways: Ways::Either,
        kind: Kind::Text(TextKind::Any),
    },
];

const SINGLE_VERSION_OVERRIDE: [Parameter; 6] = [
    Parameter {
        name: ParameterName::ModuleName,
        needed: true,
        ways: Ways::Either,
        kind: Kind::Text(TextKind::Name(NameKind::Module)),
    },
    Parameter {
        name: ParameterName::Version,
        needed: false,
        ways: Ways::Either,
        kind: Kind::Text(TextKind::Version),
    },
    Parameter {
        name: ParameterName::Registry,
        needed: false,
        ways: Ways::Either,
        kind: Kind::Text(TextKind::Registry),
    },
    Parameter {
        name: ParameterName::Patches,
        needed: false,
        ways: Ways::Either,
        kind: Kind::Texts,
    },
    Parameter {
        name: ParameterName::PatchCmds,
        needed: false,
        ways: Ways::Either,
        kind: Kind::Texts,
    },
    Parameter {
        name: ParameterName::PatchStrip,
        needed: false,
        ways: Ways::Either,
        kind: Kind::Integer,
    },
];

const MULTIPLE_VERSION_OVERRIDE: [Parameter; 3] = [
    Parameter {
        name: ParameterName::ModuleName,
        needed: true,
        ways: Ways::Either,
        kind: Kind::Text(TextKind::Name(NameKind::Module)),
    },
    Parameter {
        name: ParameterName::Versions,
        needed: true,
        ways: Ways::Either,
        kind: Kind::Versions,
    },
    Parameter {
        name: ParameterName::Registry,
        needed: false,
        ways: Ways::Either,
        kind: Kind::Text(TextKind::Registry),
    },
];

const LOCAL_PATH_OVERRIDE: [Parameter; 2] = [
    Parameter {
        name: ParameterName::ModuleName,
        needed: true,
        ways: Ways::Either,
        kind: Kind::Text(TextKind::Name(NameKind::Module)),
    },
    Parameter {
        name: ParameterName::Path,
        needed: true,
        ways: Ways::Either,
        kind: Kind::Text(TextKind::Path),
    },
];

const OVERRIDDEN: [Parameter; 1] = [Parameter {
    name: ParameterName::ModuleName,
    needed: true,
    ways: Ways::Either,
    kind: Kind::Text(TextKind::Name(NameKind::Module)),
}];

const REGISTERED: [Parameter; 1] = [Parameter {
    name: ParameterName::DevDependency,
    needed: false,
    ways: Ways::Name,
    kind: Kind::Flag,
}];

const IMPORTED: [Parameter; 1] = [Parameter {
    name: ParameterName::Proxy,
    needed: true,
    ways: Ways::Position,
    kind: Kind::Proxy,
}];

const REPOSITORY: [Parameter; 2] = [
    Parameter {
        name: ParameterName::Name,
        needed: true,
        ways: Ways::Name,
        kind: Kind::Text(TextKind::Name(NameKind::Generated)),
    },
    Parameter {
        name: ParameterName::DevDependency,
        needed: false,
        ways: Ways::Name,
        kind: Kind::Flag,
    },
];
