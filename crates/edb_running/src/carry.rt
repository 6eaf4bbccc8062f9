//! A plan is done, whatever it is.

ghost use Rattle.std.specs.Prelude.{◌≡◌, ◌<◌, ◌+◌, ◌^◌, IfOk, OnErr, MatchOption, drop, length};
ghost use Rattle.edb_moves.specs.Going.{Place, raises};
ghost use Rattle.edb_path.specs.Plans.{effect, Suits};
ghost use Rattle.edb_stack.specs.Places.{place, out};
ghost use Rattle.edb_running.specs.Standing.{tree_in, Sound};
ghost use Rattle.edb_running.specs.Rising.{left_of, IsSound};
ghost use Rattle.edb_stack.specs.Landings as raised;
ghost use Rattle.edb_running.specs.Landed.{IsLanding, LandsWith};
ghost use Rattle.edb_running.specs.Rising as rising;
ghost use Rattle.edb_running.specs.Vacant.{round_hole, hole_in, filling, code_behind};

use crate::landing::{Landed, Landing, Stand, find_landing};
use crate::prepare::{next_way, way_length};
use crate::rise::Left;
use crate::running::Running;
use edb_path::Plan;
use edb_pure::Raise;
use edb_stack::{Layer, Path, Redex};
use std::alloc::{AllocError, Global};

impl<'a> Running<'a> {
    /// Does a plan, for the process `me`. A raise goes to where it lands; where nothing catches it, that is all that is left.
    /// Where memory is refused the expression stays as it was. `AllocError` only if out of memory, here and in all that
    /// follows.
    pub fn carry(&mut self, alloc: Global, me: u32, plan: Plan<'a>) -> Result<Left<'a>, AllocError>
        requires sound { Sound self.old }
        requires suits { Suits (length (hole_in self.old).bindings) plan }
        ensures effect { (p : Place) → p.me ≡ me → IfOk result (λ left. left_of p self.new left ≡ out p (round_hole self.old) (hole_in self.old) (effect (place p (round_hole self.old) (hole_in self.old)) (filling self.old) plan.entry)) }
        ensures sound { IfOk result (λ left. IsSound left self.new) }
        ensures kept { OnErr result ((tree_in self.new ≡ tree_in self.old) × Sound self.new) }
    {
        match plan {
            Plan::Raises(raise) => self.raise(alloc, me, raise),
            plan => {
                let next = self.prepare(alloc, &plan)?;
                Ok(self.commit(plan, next))
            }
        }
    }

    /// A raise in the hole goes to where it lands.
    fn raise(&mut self, alloc: Global, me: u32, raise: Raise) -> Result<Left<'a>, AllocError>
        requires sound { Sound self.old }
        ensures effect { (p : Place) → p.me ≡ me → IfOk result (λ left. left_of p self.new left ≡ out p (round_hole self.old) (hole_in self.old) (raises raise.class raise.reason)) }
        ensures sound { IfOk result (λ left. IsSound left self.new) }
        ensures kept { OnErr result ((tree_in self.new ≡ tree_in self.old) × Sound self.new) }
    {
        let Some(landing) = self.landing_from_hole(alloc, me, &raise)? else {
            return Ok(Left::Raises(raise));
        };
        let next = self.way_landed(alloc, &landing)?;
        self.make_room(way_length(&next), 0)?;
        let _gone = self.vacate();
        Ok(self.land(me, raise, landing, next))
    }

    /// Where a raise in the hole lands.
    fn landing_from_hole(
        &self,
        alloc: Global,
        me: u32,
        raise: &Raise,
    ) -> Result<Option<Landing<'a>>, AllocError>
        ensures small { IfOk result (λ found. MatchOption found (Unit {0}) (λ l. l.depth < 2 ^ 63)) }
        ensures lands { IfOk result (IsLanding raise.now (round_hole self.now) (raised.landing me (round_hole self.now) (hole_in self.now) raise.now.class raise.now.reason)) }
    {
        let stand = Stand::in_body(&self.here);
        match &self.redex {
            Redex::Value(_) => match self.layers.get(0) {
                Some(layer) => find_landing(
                    alloc,
                    &self.layers,
                    1,
                    stand.outside(layer),
                    me,
                    raise,
                ),
                None => Ok(None),
            },
            _ => find_landing(alloc, &self.layers, 0, stand, me, raise),
        }
    }

    /// The way that a landing needs.
    fn way_landed(
        &self,
        alloc: Global,
        landing: &Landing<'a>,
    ) -> Result<Option<Path<'a>>, AllocError>
        requires { landing.now.depth < 2 ^ 63 }
        ensures { IfOk result (λ next. LandsWith landing.now.landed next (rising.next_code (drop (landing.now.depth + 1) (code_behind self.now.layers.0 self.now.redex)))) }
    {
        match &landing.landed {
            Landed::Value(_) => {
                let behind = match &self.redex {
                    Redex::Value(_) => 1,
                    _ => 0,
                };
                next_way(alloc, &self.layers, behind + landing.depth + 1)
            }
            _ => Ok(None),
        }
    }
}
