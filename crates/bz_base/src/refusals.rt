//! Refusals: what a run answers in place of a text.
ghost use Rattle.std.specs.Prelude.{◌≡◌};
ghost use Rattle.bz_base.specs.Refusals.{code_name, refusal_of};

use bz_text::Txt;
use std::alloc::Global;

/// Why a run refuses its input.
#[derive(Clone, Copy, Debug, PartialEq, Eq)]
pub enum Code {
    /// The root file is absent, or a directory.
    NoRoot,
    /// The text is no list of tokens.
    Lex,
    /// The tokens are no tree.
    Syntax,
    /// A form that the dialect refuses.
    Dialect,
    /// A name without a binding.
    Unbound,
    /// The limit of steps is reached.
    Steps,
    /// The limit of sizes is passed.
    Size,
    /// The limit of depth is passed.
    Depth,
    /// An evaluation fault.
    Fault,
    /// A call of `fail`.
    Fail,
    /// A parameter with a bad value.
    BadValue,
    /// `module` behind another directive.
    ModuleLate,
    /// A text that is no good name.
    BadName,
    /// A text that is no version.
    BadVersion,
    /// A feature that the tool leaves out.
    Left,
    /// A second override of a module.
    DoubleOverride,
    /// A multiple version override with too few versions.
    FewVersions,
    /// A dependency without a version.
    NoVersion,
    /// A module version that no registry has.
    NoModule,
    /// A source that cannot be read.
    BadSource,
    /// A file that declares another name or version than its key.
    NameDiffers,
    /// A module whose source is not local.
    SourceNotLocal,
    /// More keys, files, questions or repositories than a run may have.
    TooMany,
    /// A listed version that was not discovered.
    NotInGraph,
    /// Two compatibility levels of one module.
    Levels,
    /// A version above all that are listed.
    AboveAllowed,
    /// An apparent name that is taken.
    NameTaken,
    /// A text that is no label.
    BadLabel,
    /// An apparent name that the mapping lacks.
    NotVisible,
    /// An extension whose file lies in no module.
    HostNotModule,
    /// A repository that nothing gives.
    NoRepo,
    /// A file that is absent, or a directory.
    NoFile,
    /// A file that loads itself.
    LoadCycle,
    /// A name that a loaded file lacks.
    NoName,
    /// An extension that its file lacks.
    NoExtension,
    /// A tag class that the extension lacks.
    NoClass,
    /// An attribute that the class or rule lacks.
    NoAttr,
    /// A mandatory attribute that is not given.
    Missing,
    /// An attribute with a value of a wrong type.
    WrongType,
    /// An attribute with a value that is not allowed.
    NotAllowed,
    /// A repository declared twice.
    RepoTwice,
    /// A rule that no global of its file holds.
    NotExported,
    /// A call that may not be made here.
    NotHere,
    /// A call that the tool does not support.
    Unsupported,
    /// A file that is no text.
    NotText,
    /// A path that cannot be taken.
    BadPath,
    /// A rule that would have to fetch.
    NoFetch,
    /// An import that the extension does not generate.
    NotGenerated,
    /// An overridden repository that is not generated.
    OverrideMissing,
    /// An injected repository that is generated.
    InjectTaken,
    /// Jobs that need one another.
    Cycle,
    /// A lockfile that cannot be read.
    LockBad,
    /// A file that is too large.
    TooLarge,
    /// A module file in a form that is not read yet.
    Form,
    /// The imports of an extension that no tidy line can bring in order.
    Untidy,
    /// A real name in the metadata that the extension does not generate.
    TidyUnknown,
    /// An apparent name that is taken when imports are brought in order.
    TidyTaken,
    /// A key that is not selected.
    NotSelected,
    /// Two modules between which there is no walk.
    NoPath,
    /// A repository whose files are not made.
    NotMade,
    /// An index of vendored files that cannot be read.
    VendorBad,
    /// A file that is not vendored.
    NotVendored,
    /// A vendored file that differs from its digest.
    VendorDiffers,
}

/// A refusal and its place. An empty `file` is no place, a `line` of 0 is no line; `hint` is the
/// line at which a fault of the text was met, else 0.
#[derive(Debug, Drop)]
pub struct Refusal {
    pub code: Code,
    pub file: Txt,
    pub line: u64,
    pub detail: Txt,
    pub hint: u64,
}

impl Refusal {
    /// A refusal with no place and no detail.
    pub fn of(alloc: Global, code: Code) -> Refusal
        ensures { result ≡ refusal_of code }
    {
        Refusal {
            code,
            file: Txt::of_string(String::new(alloc)),
            line: 0,
            detail: Txt::of_string(String::new(alloc)),
            hint: 0,
        }
    }
}

impl Code {
    /// The code as it is printed.
    pub fn name(self) -> &'static str
        ensures { result.now ≡ code_name self }
    {
        match self {
            Code::NoRoot => "NoRoot",
            Code::Lex => "Lex",
            Code::Syntax => "Syntax",
            Code::Dialect => "Dialect",
            Code::Unbound => "Unbound",
            Code::Steps => "Steps",
            Code::Size => "Size",
            Code::Depth => "Depth",
            Code::Fault => "Fault",
            Code::Fail => "Fail",
            Code::BadValue => "BadValue",
            Code::ModuleLate => "ModuleLate",
            Code::BadName => "BadName",
            Code::BadVersion => "BadVersion",
            Code::Left => "Left",
            Code::DoubleOverride => "DoubleOverride",
            Code::FewVersions => "FewVersions",
            Code::NoVersion => "NoVersion",
            Code::NoModule => "NoModule",
            Code::BadSource => "BadSource",
            Code::NameDiffers => "NameDiffers",
            Code::SourceNotLocal => "SourceNotLocal",
            Code::TooMany => "TooMany",
            Code::NotInGraph => "NotInGraph",
            Code::Levels => "Levels",
            Code::AboveAllowed => "AboveAllowed",
            Code::NameTaken => "NameTaken",
            Code::BadLabel => "BadLabel",
            Code::NotVisible => "NotVisible",
            Code::HostNotModule => "HostNotModule",
            Code::NoRepo => "NoRepo",
            Code::NoFile => "NoFile",
            Code::LoadCycle => "LoadCycle",
            Code::NoName => "NoName",
            Code::NoExtension => "NoExtension",
            Code::NoClass => "NoClass",
            Code::NoAttr => "NoAttr",
            Code::Missing => "Missing",
            Code::WrongType => "WrongType",
            Code::NotAllowed => "NotAllowed",
            Code::RepoTwice => "RepoTwice",
            Code::NotExported => "NotExported",
            Code::NotHere => "NotHere",
            Code::Unsupported => "Unsupported",
            Code::NotText => "NotText",
            Code::BadPath => "BadPath",
            Code::NoFetch => "NoFetch",
            Code::NotGenerated => "NotGenerated",
            Code::OverrideMissing => "OverrideMissing",
            Code::InjectTaken => "InjectTaken",
            Code::Cycle => "Cycle",
            Code::LockBad => "LockBad",
            Code::TooLarge => "TooLarge",
            Code::Form => "Form",
            Code::Untidy => "Untidy",
            Code::TidyUnknown => "TidyUnknown",
            Code::TidyTaken => "TidyTaken",
            Code::NotSelected => "NotSelected",
            Code::NoPath => "NoPath",
            Code::NotMade => "NotMade",
            Code::VendorBad => "VendorBad",
            Code::NotVendored => "NotVendored",
            Code::VendorDiffers => "VendorDiffers",
        }
    }
}
