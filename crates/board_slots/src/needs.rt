//! Where needs stand in the list of a board's needs.
ghost use Rattle.std.specs.Prelude.{◌≡◌, ◌<◌, None, Some, IfOk, OnOk, OnErr, option_map, slice_get};
ghost use Rattle.std.specs.Prelude.{vec_len, length};
ghost use Rattle.std.specs.Arc.{arc_value};
ghost use Rattle.std.specs.List.{position_or_len};
ghost use Rattle.board_machine.specs.Boards.{File, Job};
ghost use Rattle.board_machine.specs.Moves.{is_file, is_job, shelve_need, with_need};
ghost use Rattle.board_slots.specs.Needs.{IsFirstOpen, IsNumbered, found_in, is_open, is_open_at};

use crate::wanted::Wanted;
use bz_base::{Mem, TreePath};
use bz_tree::Found;
use std::sync::Arc;

/// The number of a file's need, or that which it would have.
pub fn file_number(needs: &[Wanted], path: &TreePath) -> usize
    ensures { result ≡ position_or_len (is_file path.now) needs.now }
{
    for (number, need) in needs.iter().enumerate() {
        if need.is_file(path) {
            return number;
        }
    }
    needs.len()
}

/// The number of a job's need, or that which it would have.
pub fn job_number(needs: &[Wanted], place: usize) -> usize
    ensures { result ≡ position_or_len (is_job place) needs.now }
{
    for (number, need) in needs.iter().enumerate() {
        if need.is_job(place) {
            return number;
        }
    }
    needs.len()
}

/// The number of the first file's need without an answer, or the number of needs.
pub fn first_open(needs: &[Wanted]) -> usize
    ensures { result ≡ position_or_len is_open needs.now }
{
    for (number, need) in needs.iter().enumerate() {
        if need.open_path().is_some() {
            return number;
        }
    }
    needs.len()
}

/// The first file's need without an answer, and its path.
pub fn wanted(needs: &[Wanted]) -> Option<(u64, &TreePath)>
    ensures { IsFirstOpen needs.now result }
{
    let number = first_open(needs);
    match needs.get(number) {
        Some(need) => numbered(number as u64, need.open_path()),
        None => None,
    }
}

fn numbered(number: u64, path: Option<&TreePath>) -> Option<(u64, &TreePath)>
    ensures { IsNumbered number path.entry result }
{
    match path {
        Some(path) => Some((number, path)),
        None => None,
    }
}

/// What was found for a need.
pub fn found_at(needs: &[Wanted], number: usize) -> Mem<Option<Arc<Found>>>
    ensures { IfOk result (λ found. option_map arc_value found ≡ found_in (slice_get needs.now number)) }
{
    match needs.get(number) {
        Some(need) => need.found(),
        None => Ok(None),
    }
}

/// Whether the need of that number is one of this file, without an answer.
pub fn is_open_at(needs: &[Wanted], number: usize, path: &TreePath) -> bool
    ensures { result ≡ is_open_at path.now (slice_get needs.now number) }
{
    match needs.get(number) {
        Some(need) => is_open_for(need, path),
        None => false,
    }
}

fn is_open_for(need: &Wanted, path: &TreePath) -> bool
    ensures { result ≡ is_open_at path.now (Some need.now) }
{
    match need.open_path() {
        Some(other) => path.as_str() == other.as_str(),
        None => false,
    }
}

/// A file's need stands under its number from now on.
pub fn want_file(needs: &mut Vec<Wanted>, number: usize, path: TreePath) -> Mem<()>
    requires { number ≡ position_or_len (is_file path) needs.old.items }
    ensures wanted { OnOk result (needs.new.items ≡ with_need (is_file path) (File path None) needs.old.items) }
    ensures unchanged { OnErr result (needs.new.items ≡ needs.old.items) }
{
    if number < needs.len() {
        return Ok(());
    }
    needs.push(Wanted::file(path))?;
    Ok(())
}

/// A job's need stands under its number from now on.
pub fn want_job(needs: &mut Vec<Wanted>, number: usize, place: usize) -> Mem<()>
    requires { number ≡ position_or_len (is_job place) needs.old.items }
    ensures wanted { OnOk result (needs.new.items ≡ with_need (is_job place) (Job place) needs.old.items) }
    ensures unchanged { OnErr result (needs.new.items ≡ needs.old.items) }
{
    if number < needs.len() {
        return Ok(());
    }
    needs.push(Wanted::job(place))?;
    Ok(())
}

/// The file's need of that number is answered from now on.
pub fn answer(needs: &mut Vec<Wanted>, number: usize, found: Arc<Found>)
    requires { number < vec_len needs.old }
    ensures { needs.new.items ≡ shelve_need number (arc_value found) needs.old.items }
{
    let need = &mut needs[number];
    need.fill(found);
}
