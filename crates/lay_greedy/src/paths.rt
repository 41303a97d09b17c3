//! Paths of scalars, which edges join at their ends.
ghost use Rattle.std.specs.Prelude.{◌≡◌, ◌++◌, [], ◌∷◌, map, flat_map, IfOk, OnOk};
ghost use Rattle.std.specs.List.{position_or_len};
ghost use Rattle.lay_cost.specs.Placements as placements;
ghost use Rattle.lay_tree.specs.Greedy as layouts;
ghost use Rattle.lay_tree.specs.Greedy.{first_with, is_smallest, from_smaller_end, with_edge, without};

use crate::edges::Edge;
use crate::lists::{ends_smaller, has, is_first, is_last, is_smallest};
use lay_model::ScalarList;
use std::alloc::Global;
use std::marker::Model;
use word_base::NoMemory;

/// Paths of scalars. Each scalar stands in one of them. Contracts see the lists.
#[derive(Drop)]
pub(crate) struct Paths {
    paths: Vec<ScalarList>,
}

impl Model for Paths {
    ghost use Rattle.std.specs.Prelude.{List, ℕ};

    ghost Value = { List (List ℕ) };

    ghost view = { λ p. p.paths.items };
}

impl Paths {
    /// Each scalar is a path.
    pub(crate) fn of_scalars(alloc: Global, members: &[u8]) -> Result<Self, NoMemory>
        ensures { IfOk result (λ paths. paths ≡ map (λ s. s ∷ []) members.now) }
    {
        let mut paths = Vec::new(alloc);
        for scalar in members {
            paths.push(ScalarList::new(vec![in alloc; *scalar; 1]?))?;
        }
        Ok(Paths { paths })
    }

    /// An edge joins two paths at their ends, unless one of its scalars is no end, or both are those of one path. The joined path is the
    /// last one then.
    pub(crate) fn join(&mut self, alloc: Global, edge: &Edge) -> Result<(), NoMemory>
        ensures { OnOk result (self.new ≡ with_edge self.old edge.now) }
    {
        if self.joins(edge) {
            let front = self.take(alloc, edge.low);
            let back = self.take(alloc, edge.high);
            self.paths.push(joined(front, back, edge)?)?;
        }
        Ok(())
    }

    fn joins(&self, edge: &Edge) -> bool
        ensures { result ≡ layouts.joins edge.now self.now }
    {
        let front = self.path_of(edge.low);
        let back = self.path_of(edge.high);
        is_end(edge.low, front) && is_end(edge.high, back) && !has(front, edge.high)
    }

    // The path with a scalar.
    fn path_of(&self, scalar: u8) -> &[u8]
        ensures { result.now ≡ layouts.path_of scalar self.now }
    {
        let place = self.place_of(scalar);
        if place < self.paths.len() {
            self.paths[place].scalars()
        } else {
            &[]
        }
    }

    // Takes the path with a scalar out.
    fn take(&mut self, alloc: Global, scalar: u8) -> Vec<u8>
        ensures path { result.items ≡ layouts.path_of scalar self.old }
        ensures others { self.new ≡ without scalar self.old }
    {
        let place = self.place_of(scalar);
        if place < self.paths.len() {
            self.paths.remove(place).into_vec()
        } else {
            Vec::new(alloc)
        }
    }

    fn place_of(&self, scalar: u8) -> usize
        ensures { result ≡ position_or_len (λ path. placements.has path scalar) self.now }
    {
        for (place, path) in self.paths.iter().enumerate() {
            if has(path.scalars(), scalar) {
                return place;
            }
        }
        self.paths.len()
    }

    /// The paths in one list: each from its end with the smaller number, in order of their smallest scalars. The scalars stand in
    /// rising order.
    pub(crate) fn in_one_list(&self, alloc: Global, members: &[u8]) -> Result<ScalarList, NoMemory>
        ensures { IfOk result (λ list. list ≡ flat_map (λ s. from_smaller_end (first_with (layouts.is_smallest s) self.now)) members.now) }
    {
        let mut scalars = Vec::new(alloc);
        for scalar in members {
            let path = turned(alloc, self.path_above(*scalar))?;
            scalars.extend_from_slice(&path)?;
        }
        Ok(ScalarList::new(scalars))
    }

    // The path of which a scalar is the smallest one.
    fn path_above(&self, scalar: u8) -> &[u8]
        ensures { result.now ≡ first_with (layouts.is_smallest scalar) self.now }
    {
        for path in &self.paths {
            if is_smallest(scalar, path.scalars()) {
                return path.scalars();
            }
        }
        &[]
    }
}

fn is_end(scalar: u8, path: &[u8]) -> bool
    ensures { result ≡ layouts.is_end scalar path.now }
{
    is_first(scalar, path) || is_last(scalar, path)
}

// The second path behind the first one, so that the edge's scalars are neighbours.
fn joined(front: Vec<u8>, back: Vec<u8>, edge: &Edge) -> Result<ScalarList, NoMemory>
    ensures { IfOk result (λ path. path ≡ layouts.ended_by edge.now.low front.items ++ layouts.begun_by edge.now.high back.items) }
{
    let mut path = ended_by(edge.low, front);
    path.extend_from_slice(&begun_by(edge.high, back))?;
    Ok(ScalarList::new(path))
}

fn ended_by(scalar: u8, mut path: Vec<u8>) -> Vec<u8>
    ensures { result.items ≡ layouts.ended_by scalar path.items }
{
    if !is_last(scalar, &path) {
        path.reverse();
    }
    path
}

fn begun_by(scalar: u8, mut path: Vec<u8>) -> Vec<u8>
    ensures { result.items ≡ layouts.begun_by scalar path.items }
{
    if !is_first(scalar, &path) {
        path.reverse();
    }
    path
}

// A path from its end with the smaller number.
fn turned(alloc: Global, path: &[u8]) -> Result<Vec<u8>, NoMemory>
    ensures { IfOk result (λ scalars. scalars.items ≡ from_smaller_end path.now) }
{
    let mut scalars = Vec::from_slice(alloc, path)?;
    if ends_smaller(path) {
        scalars.reverse();
    }
    Ok(scalars)
}
