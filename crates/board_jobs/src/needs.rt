//! Needs that are added to a list with room for them.
ghost use Rattle.std.specs.Prelude.{◌≡◌, ◌<◌, None, vec_len};
ghost use Rattle.std.specs.List.{position_or_len};
ghost use Rattle.std.specs.Vec.{vec_capacity};
ghost use Rattle.board_machine.specs.Boards.{File, Job};
ghost use Rattle.board_machine.specs.Moves.{is_file, is_job, with_need};

use board_slots::Wanted;
use bz_base::TreePath;

/// A file's need stands under its number from now on. Takes no memory.
pub fn put_file(needs: &mut Vec<Wanted>, number: usize, path: TreePath)
    requires number { number ≡ position_or_len (is_file path) needs.old.items }
    requires room { vec_len needs.old < vec_capacity needs.old }
    ensures { needs.new.items ≡ with_need (is_file path) (File path None) needs.old.items }
{
    if number < needs.len() {
        return;
    }
    let _ = needs.push(Wanted::file(path));
}

/// A job's need stands under its number from now on. Takes no memory.
pub fn put_job(needs: &mut Vec<Wanted>, number: usize, place: usize)
    requires number { number ≡ position_or_len (is_job place) needs.old.items }
    requires room { vec_len needs.old < vec_capacity needs.old }
    ensures { needs.new.items ≡ with_need (is_job place) (Job place) needs.old.items }
{
    if number < needs.len() {
        return;
    }
    let _ = needs.push(Wanted::job(place));
}
