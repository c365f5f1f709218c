//! The parameters of directives: names, ways in which they are given, and what they take.
ghost use Rattle.std.specs.Prelude.{◌≡◌};
ghost use Rattle.module_arguments.specs.Directives.{name_text};

use star_library::Ways;

/// A parameter's name.
#[derive(Clone, Copy, PartialEq, Eq)]
pub enum ParameterName {
    BazelCompatibility,
    CompatibilityLevel,
    DevDependency,
    ExtensionBzlFile,
    ExtensionName,
    Isolate,
    MaxCompatibilityLevel,
    ModuleName,
    Name,
    PatchCmds,
    PatchStrip,
    Patches,
    Path,
    Proxy,
    Registry,
    RepoName,
    RepoRuleBzlFile,
    RepoRuleName,
    Version,
    Versions,
}

impl ParameterName {
    /// The name as it is written at a call.
    #[tactic(auto, unfolding(crate::specs::Directives::name_text))]
    pub fn text(self) -> &'static str
        ensures { result.now ≡ name_text self }
    {
        match self {
            ParameterName::BazelCompatibility => "bazel_compatibility",
            ParameterName::CompatibilityLevel => "compatibility_level",
            ParameterName::DevDependency => "dev_dependency",
            ParameterName::ExtensionBzlFile => "extension_bzl_file",
            ParameterName::ExtensionName => "extension_name",
            ParameterName::Isolate => "isolate",
            ParameterName::MaxCompatibilityLevel => "max_compatibility_level",
            ParameterName::ModuleName => "module_name",
            ParameterName::Name => "name",
            ParameterName::PatchCmds => "patch_cmds",
            ParameterName::PatchStrip => "patch_strip",
            ParameterName::Patches => "patches",
            ParameterName::Path => "path",
            ParameterName::Proxy => "proxy",
            ParameterName::Registry => "registry",
            ParameterName::RepoName => "repo_name",
            ParameterName::RepoRuleBzlFile => "repo_rule_bzl_file",
            ParameterName::RepoRuleName => "repo_rule_name",
            ParameterName::Version => "version",
            ParameterName::Versions => "versions",
        }
    }
}

/// Names that a text may be.
#[derive(Clone, Copy)]
pub enum NameKind {
    /// The name of the module itself, which may be empty.
    Own,
    /// The name of another module.
    Module,
    /// An apparent repository name, or the empty text for the default.
    Repository,
    /// The name of a repository that is made.
    Generated,
    /// The name under which a file exports an extension.
    Exported,
}

/// Texts that a parameter takes.
#[derive(Clone, Copy)]
pub enum TextKind {
    Any,
    Name(NameKind),
    /// A version, which is kept without BUILD.
    Version,
    /// A registry, or the empty text for none.
    Registry,
    /// A path from the workspace on.
    Path,
}

/// What a parameter takes.
#[derive(Clone, Copy)]
pub enum Kind {
    Text(TextKind),
    TextOrNone(TextKind),
    Texts,
    /// Versions of which two differ.
    Versions,
    Flag,
    /// A flag that may not be set.
    Unset,
    /// A compatibility level.
    Level,
    /// A greatest compatibility level, which may not be given.
    NoMaximum,
    /// An integer that no declaration keeps.
    Integer,
    /// What `use_extension` gave.
    Proxy,
}

/// A parameter. Those that may be given by position come first.
#[derive(Clone, Copy)]
pub struct Parameter {
    pub name: ParameterName,
    pub needed: bool,
    pub ways: Ways,
    pub kind: Kind,
}
