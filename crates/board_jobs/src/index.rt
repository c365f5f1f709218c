//! What is kept beside a board's jobs: places that may be queued, the places of those that may
//! wait for a job or read a file, and a number of first jobs that all have values.
ghost use Rattle.std.specs.Prelude.{◌≡◌, ◌≤◌, ◌<◌, ℕ, [], IfSome, OnOk, slice_get, vec_len};
ghost use Rattle.board_jobs.specs.Indexes.{Has, HasAll, IsWider, list_at, rest_of};

use bz_base::{Mem, OutOfMemory, Seq};
use std::alloc::Global;
use std::collections::BTreeSet;
use std::marker::Model;

/// Contracts see its lists.
#[derive(Drop)]
pub struct Index {
    queue: BTreeSet<usize>,
    waiting: Vec<Seq<usize>>,
    reading: Vec<Seq<usize>>,
    valued: usize,
}

impl Model for Index {
    ghost use Rattle.board_jobs.specs.Indexes.{Index as Seen};

    ghost Value = { Seen };

    ghost view = { λ i. record { queue = i.queue.keys; waiting = i.waiting.items; reading = i.reading.items; valued = i.valued } };
}

impl Index {
    pub fn new(alloc: Global) -> Index
        ensures { result ≡ record { queue = []; waiting = []; reading = []; valued = 0 } }
    {
        Index {
            queue: BTreeSet::new(alloc),
            waiting: Vec::new(alloc),
            reading: Vec::new(alloc),
            valued: 0,
        }
    }

    /// The job at a place may be queued.
    pub fn queue(&mut self, place: usize) -> Mem<()>
        ensures wider { IsWider self.old self.new }
        ensures there { OnOk result (Has place self.new.queue) }
    {
        self.queue.insert(place)?;
        Ok(())
    }

    /// The least place that may be queued.
    pub fn first(&self) -> Option<usize>
        ensures first { result ≡ slice_get self.now.queue 0 }
        ensures least { IfSome result (λ place. (at : ℕ) → Has at self.now.queue → place ≤ at) }
    {
        match self.queue.first() {
            Some(place) => Some(*place),
            None => None,
        }
    }

    /// The least place isn't queued.
    pub fn drop_first(&mut self)
        ensures { self.new ≡ record self.old { queue = rest_of self.old.queue } }
    {
        self.queue.pop_first();
    }

    /// The job at a place may wait for another one.
    pub fn wait(&mut self, alloc: Global, place: usize, other: usize) -> Mem<()>
        ensures wider { IsWider self.old self.new }
        ensures there { OnOk result (Has place (list_at self.new.waiting other)) }
    {
        add_at(alloc, &mut self.waiting, place, other)
    }

    /// The job at a place may wait for a file.
    pub fn read(&mut self, alloc: Global, place: usize, need: usize) -> Mem<()>
        ensures wider { IsWider self.old self.new }
        ensures there { OnOk result (Has place (list_at self.new.reading need)) }
    {
        add_at(alloc, &mut self.reading, place, need)
    }

    /// The places of jobs that may wait for the one at a place.
    pub fn waiting(&self, place: usize) -> &[usize]
        ensures { result.now ≡ list_at self.now.waiting place }
    {
        list_in(&self.waiting, place)
    }

    /// The places of jobs that may wait for a file.
    pub fn reading(&self, need: usize) -> &[usize]
        ensures { result.now ≡ list_at self.now.reading need }
    {
        list_in(&self.reading, need)
    }

    /// So many first jobs have values.
    pub fn valued(&self) -> usize
        ensures { result ≡ self.now.valued }
    {
        self.valued
    }

    pub fn set_valued(&mut self, valued: usize)
        ensures { self.new ≡ record self.old { valued = valued } }
    {
        self.valued = valued;
    }

    /// The job at a place may have no value.
    pub fn lower(&mut self, place: usize)
        ensures wider { IsWider self.old self.new }
        ensures kept { self.new ≡ record self.old { valued = self.new.valued } }
        ensures lowered { self.new.valued ≤ place }
    {
        if place < self.valued {
            self.valued = place;
        }
    }
}

fn list_in(lists: &[Seq<usize>], at: usize) -> &[usize]
    ensures { result.now ≡ list_at lists.now at }
{
    match lists.get(at) {
        Some(list) => list.items(),
        None => &[],
    }
}

/// Adds a place to the list at another.
fn add_at(alloc: Global, lists: &mut Vec<Seq<usize>>, place: usize, at: usize) -> Mem<()>
    ensures kept { HasAll lists.old.items lists.new.items }
    ensures there { OnOk result (Has place (list_at lists.new.items at)) }
{
    make_list(alloc, lists, at)?;
    push_at(lists, place, at)
}

/// A list stands there from now on.
fn make_list(alloc: Global, lists: &mut Vec<Seq<usize>>, at: usize) -> Mem<()>
    ensures kept { HasAll lists.old.items lists.new.items }
    ensures room { OnOk result (at < vec_len lists.new) }
{
    'lists: while lists.len() <= at {
        lists.push(Seq::new(alloc))?;
    }
    Ok(())
}

fn push_at(lists: &mut Vec<Seq<usize>>, place: usize, at: usize) -> Mem<()>
    requires { at < vec_len lists.old }
    ensures kept { HasAll lists.old.items lists.new.items }
    ensures there { OnOk result (Has place (list_at lists.new.items at)) }
{
    let list = &mut lists[at];
    match list.push(place) {
        Ok(()) => Ok(()),
        Err(_) => Err(OutOfMemory),
    }
}
