//! The names that the dialects give a meaning.
ghost use Rattle.std.specs.Prelude.{◌≡◌, drop};
ghost use Rattle.star_scopes.specs.FreeNames as spec;
ghost use Rattle.star_scopes.specs.FreeNames.{is_among};

use crate::dialects::Dialect;
use bz_text::same_bytes;

fn is_constant(name: &[u8]) -> bool
    ensures { result ≡ is_among spec.constants name.now }
{
    same_bytes(name, b"None") || (same_bytes(name, b"True") || same_bytes(name, b"False"))
}

#[tactic(auto, unfolding(crate::specs::FreeNames::functions))]
fn is_function(name: &[u8]) -> bool
    ensures { result ≡ is_among spec.functions name.now }
{
    same_bytes(name, b"abs")
        || (same_bytes(name, b"all")
            || (same_bytes(name, b"any")
                || (same_bytes(name, b"bool")
                    || (same_bytes(name, b"dict")
                        || (same_bytes(name, b"enumerate")
                            || (same_bytes(name, b"fail")
                                || (same_bytes(name, b"getattr")
                                    || is_function_from_hasattr(name))))))))
}

#[tactic(auto, unfolding(crate::specs::FreeNames::functions))]
fn is_function_from_hasattr(name: &[u8]) -> bool
    ensures { result ≡ is_among (drop 8 spec.functions) name.now }
{
    same_bytes(name, b"hasattr")
        || (same_bytes(name, b"int")
            || (same_bytes(name, b"len")
                || (same_bytes(name, b"list")
                    || (same_bytes(name, b"max")
                        || (same_bytes(name, b"min")
                            || (same_bytes(name, b"print")
                                || (same_bytes(name, b"range") || is_function_from_repr(name))))))))
}

#[tactic(auto, unfolding(crate::specs::FreeNames::functions))]
fn is_function_from_repr(name: &[u8]) -> bool
    ensures { result ≡ is_among (drop 16 spec.functions) name.now }
{
    same_bytes(name, b"repr")
        || (same_bytes(name, b"reversed")
            || (same_bytes(name, b"sorted")
                || (same_bytes(name, b"str")
                    || (same_bytes(name, b"tuple")
                        || (same_bytes(name, b"type") || same_bytes(name, b"zip"))))))
}

#[tactic(auto, unfolding(crate::specs::FreeNames::extension_names))]
fn is_extension_name(name: &[u8]) -> bool
    ensures { result ≡ is_among spec.extension_names name.now }
{
    same_bytes(name, b"Label")
        || (same_bytes(name, b"attr")
            || (same_bytes(name, b"module_extension")
                || (same_bytes(name, b"repository_rule")
                    || (same_bytes(name, b"struct")
                        || (same_bytes(name, b"tag_class") || same_bytes(name, b"visibility"))))))
}

#[tactic(auto, unfolding(crate::specs::FreeNames::directives))]
fn is_directive(name: &[u8]) -> bool
    ensures { result ≡ is_among spec.directives name.now }
{
    same_bytes(name, b"module")
        || (same_bytes(name, b"bazel_dep")
            || (same_bytes(name, b"use_extension")
                || (same_bytes(name, b"use_repo")
                    || (same_bytes(name, b"use_repo_rule")
                        || (same_bytes(name, b"override_repo")
                            || (same_bytes(name, b"inject_repo")
                                || (same_bytes(name, b"include") || is_override(name))))))))
}

/// Directives, from the overrides on.
#[tactic(auto, unfolding(crate::specs::FreeNames::directives))]
fn is_override(name: &[u8]) -> bool
    ensures { result ≡ is_among (drop 8 spec.directives) name.now }
{
    same_bytes(name, b"single_version_override")
        || (same_bytes(name, b"multiple_version_override")
            || (same_bytes(name, b"local_path_override")
                || (same_bytes(name, b"archive_override")
                    || (same_bytes(name, b"git_override")
                        || (same_bytes(name, b"register_toolchains")
                            || same_bytes(name, b"register_execution_platforms"))))))
}

fn is_own_name(dialect: Dialect, name: &[u8]) -> bool
    ensures { result ≡ is_among (spec.own_names dialect) name.now }
{
    match dialect {
        Dialect::Extension => is_extension_name(name),
        Dialect::Module => is_directive(name),
    }
}

/// Whether a dialect gives a name a meaning.
#[tactic(auto, unfolding(crate::specs::FreeNames::has_free))]
pub(crate) fn has_free(dialect: Dialect, name: &[u8]) -> bool
    ensures { result ≡ spec.has_free dialect name.now }
{
    is_constant(name) || (is_function(name) || is_own_name(dialect, name))
}
