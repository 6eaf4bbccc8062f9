//! All memory that a plan needs is taken before it is done.

ghost use Rattle.std.specs.Prelude.{◌≡◌, ◌≤◌, ◌+◌, IfOk, OnOk, drop};
ghost use Rattle.edb_running.specs.Rising as rising;
ghost use Rattle.edb_running.specs.Rising.{IsNext, next_count};
ghost use Rattle.edb_running.specs.Standing.{info_in};
ghost use Rattle.edb_running.specs.Vacant.{HasWay, code_behind, plan_count, pair_count};

use crate::outward::next_code;
use crate::running::Running;
use edb_path::{Plan, way};
use edb_stack::{Layer, Path, Redex, Stack};
use std::alloc::{AllocError, Global};

impl<'a> Running<'a> {
    /// The way that a plan needs, with room for what it brings. The expression stays as it is, also where memory is refused.
    /// `AllocError` only if out of memory.
    pub(crate) fn prepare(
        &mut self,
        alloc: Global,
        plan: &Plan<'a>,
    ) -> Result<Option<Path<'a>>, AllocError>
        ensures next { IfOk result (λ next. HasWay plan.now next (rising.next_code (code_behind self.old.layers.0 self.old.redex))) }
        ensures room { IfOk result (λ next. plan_count plan.now + next_count next + 1 ≤ self.new.layers.1) }
        ensures pair_room { IfOk result (λ next. pair_count plan.now ≤ self.new.here.variables.room) }
        ensures layers { self.new.layers.0 ≡ self.old.layers.0 }
        ensures info { info_in self.new ≡ info_in self.old }
        ensures redex { self.new.redex ≡ self.old.redex }
        ensures bodies { self.new.bodies ≡ self.old.bodies }
    {
        match plan {
            Plan::Gives(_) => {
                let next = self.way_behind(alloc)?;
                self.make_room(way_length(&next), 0)?;
                Ok(next)
            }
            Plan::Passes(pairs) => {
                let next = self.way_behind(alloc)?;
                self.make_room(way_length(&next), pairs.len())?;
                Ok(next)
            }
            Plan::Turns(pairs, path) => {
                self.make_room(path.layers.len(), pairs.len())?;
                Ok(None)
            }
            _ => {
                self.make_room(0, 0)?;
                Ok(None)
            }
        }
    }

    /// Room for so many layers and one more, and for so many pairs.
    pub(crate) fn make_room(&mut self, layers: usize, pairs: usize) -> Result<(), AllocError>
        ensures room { OnOk result (layers + 1 ≤ self.new.layers.1) }
        ensures pair_room { OnOk result (pairs ≤ self.new.here.variables.room) }
        ensures layers { self.new.layers.0 ≡ self.old.layers.0 }
        ensures info { info_in self.new ≡ info_in self.old }
        ensures redex { self.new.redex ≡ self.old.redex }
        ensures bodies { self.new.bodies ≡ self.old.bodies }
    {
        let Some(count) = layers.checked_add(1) else {
            return Err(AllocError);
        };
        self.layers.reserve(count)?;
        self.here.variables.reserve(pairs)?;
        Ok(())
    }

    /// The way to the code that is evaluated once a value stands in the hole.
    fn way_behind(&self, alloc: Global) -> Result<Option<Path<'a>>, AllocError>
        ensures { IfOk result (λ next. IsNext next (rising.next_code (code_behind self.now.layers.0 self.now.redex))) }
    {
        let depth = match &self.redex {
            Redex::Value(_) => 1,
            _ => 0,
        };
        next_way(alloc, &self.layers, depth)
    }
}

/// How many layers a way has.
pub(crate) fn way_length(next: &Option<Path>) -> usize
    ensures { result ≡ next_count next.now }
{
    match next {
        Some(path) => path.layers.len(),
        None => 0,
    }
}

/// The way to the code that `next_code` finds.
pub(crate) fn next_way<'a>(
    alloc: Global,
    layers: &Stack<Layer<'a>>,
    depth: usize,
) -> Result<Option<Path<'a>>, AllocError>
    ensures { IfOk result (λ next. IsNext next (rising.next_code (drop depth layers.now.0))) }
{
    match next_code(layers, depth) {
        Some(code) => Ok(Some(way(alloc, Vec::new(alloc), code)?)),
        None => Ok(None),
    }
}
