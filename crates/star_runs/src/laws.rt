//! What the definitions imply.
ghost use Rattle.std.specs.Prelude.{◌≡◌, [], ℕ, List, Some, slice_get};
ghost use Rattle.star_code.specs.Codes.{FileCoded, FilesCoded};
ghost use Rattle.star_code.specs.declared.code.Code.{Code};
ghost use Rattle.star_core.specs.Tables.{Table};
ghost use Rattle.star_core.specs.declared.values.Val.{Val};
ghost use Rattle.star_meaning.specs.Calls.{call_meaning, file_meaning};
ghost use Rattle.star_meaning.specs.Expressions.{Program};
ghost use Rattle.star_meaning.specs.Worlds.{World};
ghost use Rattle.star_runs.specs.Runs.{Comes, call_begun, file_begun};

use star_core::Host;
use star_meaning::Library;

/// A machine at the beginning of a file's code comes to what the file means, for every host, library,
/// table of answers and world, and whichever files there are beside it.
pub fn a_file_comes_to_what_it_means<H: Host, L: Library>()
    ensures { (programs : List Program) (codes : List Code) (number : ℕ) (program : Program)
        (this : Code) (answers : Table) (world : World) (host : H)
        → FilesCoded programs codes
        → slice_get codes number ≡ Some this
        → FileCoded program this
        → Comes H.meaning L.rows codes answers (file_begun codes number this world) host
        (file_meaning H.meaning answers L.rows programs number program world host) }
{}

/// A machine before a call of a value comes to what the call means.
pub fn a_call_comes_to_what_it_means<H: Host, L: Library>()
    ensures { (programs : List Program) (codes : List Code) (number : ℕ) (f : Val)
        (values : List Val) (answers : Table) (world : World) (host : H)
        → FilesCoded programs codes
        → Comes H.meaning L.rows codes answers (call_begun number f values world) host
        (call_meaning H.meaning answers L.rows programs f values world host) }
{}
