//! Module keys.
ghost use Rattle.std.specs.Prelude.{◌≡◌, ◌↔◌, ◌++◌, IfOk, IsTrue, OnOk, string_bytes};
ghost use Rattle.bz_base.specs.Keys.{key_text, version_text};

use bz_text::{Mem, Txt};
use std::alloc::Global;

/// The key of a module version. The root's key is two empty texts where its file names none.
#[derive(Debug, Drop)]
pub struct Key {
    pub name: Txt,
    pub version: Txt,
}

impl Key {
    /// A second key with the same texts.
    pub fn copy(&self, alloc: Global) -> Mem<Key>
        ensures { IfOk result (λ copy. copy ≡ self.now) }
    {
        Ok(Key {
            name: self.name.copy(alloc)?,
            version: self.version.copy(alloc)?,
        })
    }

    /// Whether two keys have the same texts.
    pub fn same(&self, other: &Key) -> bool
        ensures { IsTrue result ↔ (self.now ≡ other.now) }
    {
        self.name.same(&other.name) && self.version.same(&other.version)
    }

    /// `NAME@VERSION`, with `_` for the empty version.
    pub fn text(&self, alloc: Global) -> Mem<Txt>
        ensures { IfOk result (λ text. text ≡ key_text self.now) }
    {
        let mut text = String::new(alloc);
        self.push_text(&mut text)?;
        Ok(Txt::of_string(text))
    }

    /// Puts `NAME@VERSION` behind a text.
    pub fn push_text(&self, text: &mut String) -> Mem<()>
        ensures { OnOk result (string_bytes text.new ≡ string_bytes text.old ++ key_text self.now) }
    {
        text.push_str(self.name.as_str())?;
        text.push_str("@")?;
        push_version(text, self.version.as_str())
    }
}

fn push_version(text: &mut String, version: &str) -> Mem<()>
    ensures { OnOk result (string_bytes text.new ≡ string_bytes text.old ++ version_text version.now) }
{
    if version.is_empty() {
        Ok(text.push_str("_")?)
    } else {
        Ok(text.push_str(version)?)
    }
}
