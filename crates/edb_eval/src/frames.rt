//! The frames round what is evaluated next.

ghost use Rattle.std.specs.Prelude.{◌≡◌, ◌<◌, ◌∷◌, [], List, length, MatchOption, MatchResult, slice_get};
ghost use Rattle.std.specs.List.{list_any};
ghost use Rattle.std.specs.Option.{option_copied};
ghost use Rattle.edb_lang.specs.Syntax.{exps_of, none, more};
ghost use Rattle.edb_lang.specs.TermText.{same_name};
ghost use Rattle.edb_model.specs.Lookup.{version_beside};
ghost use Rattle.edb_eval.specs.declared.frames.Frame.TheVariants as frame;
ghost use Rattle.edb_eval.specs.Bodies.{outer_bodies, version_or_first};
ghost use Rattle.edb_eval.specs.BodyInfo.{body_info};
ghost use Rattle.edb_eval.specs.Tree.{info_of, pending_exps};
ghost use Rattle.edb_eval.specs.Places.{at_body, is_tail};

use crate::body::Body;
use crate::stack::Stack;
use edb_lang::{Bindings, Expr, Name, Op, Pattern, Rows, Term};
use std::alloc::Global;
use std::marker::Model;

/// What is done with operands once all of them are values.
#[derive(Clone, Copy)]
pub enum Operation<'a> {
    Operate(Op),
    Local(&'a Name),
    Remote,
}

/// The operands that are not begun: there may be a first one by itself, before the others.
#[derive(Clone, Copy)]
pub struct Pending<'a> {
    pub first: Option<&'a Expr>,
    pub rest: &'a [Expr],
}

impl<'a> Pending<'a> {
    /// The operand that is next, and those behind it.
    pub fn split(self) -> Option<(&'a Expr, Pending<'a>)>
        ensures { MatchOption result (pending_exps self.entry ≡ none) (λ p. pending_exps self.entry ≡ more p.0.now (pending_exps p.1)) }
    {
        match self.first {
            Some(first) => {
                let rest = Pending {
                    first: None,
                    rest: self.rest,
                };
                Some((first, rest))
            }
            None => match self.rest.split_first() {
                Some((first, rest)) => Some((first, Pending { first: None, rest })),
                None => None,
            },
        }
    }
}

/// A node with a hole for the part of it that is evaluated next.
#[derive(Drop)]
pub enum Holder<'a> {
    Operands {
        operation: Operation<'a>,
        done: Rows<Term>,
        pending: Pending<'a>,
    },
    Match(&'a Pattern),
    Sequence {
        line: u32,
        rest: &'a [Expr],
    },
}

/// What a Body says of the call that it stands for.
#[derive(Drop)]
pub struct Info {
    pub home: Name,
    pub version: u32,
    pub name: Name,
    pub arity: usize,
    pub level: u64,
    pub bindings: Bindings,
}

impl Info {
    /// What a caller sees of it; takes no memory.
    pub fn seen(&self) -> Body<'_>
        ensures { body_info result ≡ info_of self.now }
    {
        Body {
            module: &self.home,
            version: self.version,
            name: &self.name,
            arity: self.arity,
            level: self.level,
            bindings: &self.bindings,
        }
    }
}

/// A frame: a node with a hole, or a Body, which then has the Body outside of it.
#[derive(Drop)]
pub enum Frame<'a> {
    Holder(Holder<'a>),
    Body(Info),
}

impl<'a> Frame<'a> {
    // The version of a Body of this module.
    fn version_of(&self, module: &Name) -> Option<u32>
        ensures { result ≡ version_beside «module».now (outer_bodies (self.now ∷ [])) }
    {
        match self {
            Frame::Holder(_) => None,
            Frame::Body(info) => {
                if info.home.same(module) {
                    Some(info.version)
                } else {
                    None
                }
            }
        }
    }

    // Whether it is a Body of one of these modules.
    fn is_body_of(&self, modules: &[Name]) -> bool
        ensures { result ≡ list_any (λ b. list_any (same_name b.0) modules.now) (outer_bodies (self.now ∷ [])) }
    {
        match self {
            Frame::Holder(_) => false,
            Frame::Body(info) => is_among(&info.home, modules),
        }
    }
}

/// The frames from the innermost one outward, with a count of the Bodies among them.
#[derive(Drop)]
pub struct Frames<'a> {
    stack: Stack<Frame<'a>>,
    bodies: usize,
}

impl<'a> Model for Frames<'a> {
    ghost use Rattle.std.specs.Prelude.{◌≡◌, List, length};
    ghost use Rattle.std.specs.Coded.{codes};
    ghost use Rattle.edb_lang.specs.TermCodes.{coded_datum};
    ghost use Rattle.edb_lang.specs.SyntaxCodes.{coded_exp, coded_pat};
    ghost use Rattle.edb_eval.specs.declared.frames.Frame.{Frame};

    ghost Value = { List Frame };

    ghost coded = { Prim.hlevel (codes, coded_datum, coded_exp, coded_pat) };

    ghost use Rattle.edb_eval.specs.Bodies.{outer_bodies};

    ghost view = { λ f. f.stack };

    ghost invariant = { λ f. f.bodies ≡ length (outer_bodies f.stack) };
}

impl<'a> Frames<'a> {
    /// No frames; takes no memory.
    pub fn new(alloc: Global) -> Frames<'a>
        ensures { result ≡ [] }
    {
        Frames {
            stack: Stack::new(alloc),
            bodies: 0,
        }
    }

    /// How many of the frames are Bodies.
    pub fn bodies(&self) -> usize
        ensures { result ≡ length (outer_bodies self.now) }
    {
        self.bodies
    }

    /// Puts a node round the hole; where memory is refused nothing changes, and the node comes back.
    pub fn push_holder(&mut self, holder: Holder<'a>) -> Result<(), Holder<'a>>
        ensures { MatchResult result (λ _. self.new ≡ frame.Holder holder.entry ∷ self.old) (λ back. (back ≡ holder.entry) × (self.new ≡ self.old)) }
    {
        match self.stack.push(Frame::Holder(holder)) {
            Ok(()) => Ok(()),
            Err(Frame::Holder(back)) => Err(back),
            Err(Frame::Body(_)) => unreachable!(),
        }
    }

    /// Puts a Body round the hole; where memory is refused nothing changes, and the Body comes back.
    pub fn push_body(&mut self, outer: Info) -> Result<(), Info>
        requires { length (outer_bodies self.old) < 16384 }
        ensures { MatchResult result (λ _. self.new ≡ frame.Body outer ∷ self.old) (λ back. (back ≡ outer) × (self.new ≡ self.old)) }
    {
        match self.stack.push(Frame::Body(outer)) {
            Ok(()) => {
                self.bodies += 1;
                Ok(())
            }
            Err(Frame::Body(back)) => Err(back),
            Err(Frame::Holder(_)) => unreachable!(),
        }
    }

    /// Takes the innermost frame away, where there is one.
    pub fn pop(&mut self) -> Option<Frame<'a>>
        ensures { MatchOption result ((self.old ≡ []) × (self.new ≡ [])) (λ frame. self.old ≡ frame ∷ self.new) }
    {
        match self.stack.pop() {
            None => None,
            Some(Frame::Holder(holder)) => Some(Frame::Holder(holder)),
            Some(Frame::Body(outer)) => {
                self.bodies -= 1;
                Some(Frame::Body(outer))
            }
        }
    }

    /// Whether a Body is the innermost frame, or there is none.
    pub fn is_at_body(&self) -> bool
        ensures { result ≡ at_body self.now }
    {
        match self.stack.get(0) {
            None => true,
            Some(Frame::Holder(_)) => false,
            Some(Frame::Body(_)) => true,
        }
    }

    /// Whether the hole is all that is left of the innermost Body.
    #[tactic(auto, using(crate::proofs::Depths::depths))]
    pub fn is_tail(&self) -> bool
        ensures { result ≡ is_tail self.now }
    {
        for depth in 0..self.stack.len() {
            match self.stack.get(depth) {
                Some(Frame::Holder(Holder::Sequence { rest, .. })) => {
                    if !rest.is_empty() {
                        return false;
                    }
                }
                Some(Frame::Holder(_)) => return false,
                _ => return true,
            }
        }
        true
    }

    /// The version of the innermost Body of this module among the frames; 1 where there is none.
    #[tactic(auto, using(crate::proofs::Depths::depths))]
    pub fn version_of(&self, module: &Name) -> u32
        ensures { result ≡ version_or_first (version_beside «module».now (outer_bodies self.now)) }
    {
        for depth in 0..self.stack.len() {
            match self.stack.get(depth) {
                Some(frame) => match frame.version_of(module) {
                    Some(version) => return version,
                    None => {}
                },
                None => return 1,
            }
        }
        1
    }

    /// Whether some Body among the frames is of one of these modules.
    #[tactic(auto, using(crate::proofs::Depths::depths))]
    pub fn is_inside(&self, modules: &[Name]) -> bool
        ensures { result ≡ list_any (λ b. list_any (same_name b.0) modules.now) (outer_bodies self.now) }
    {
        for depth in 0..self.stack.len() {
            match self.stack.get(depth) {
                Some(frame) => {
                    if frame.is_body_of(modules) {
                        return true;
                    }
                }
                None => return false,
            }
        }
        false
    }
}

/// Whether this is one of these modules.
pub fn is_among(module: &Name, modules: &[Name]) -> bool
    ensures { result ≡ list_any (same_name «module».now) modules.now }
{
    modules.iter().any(|other| module.same(other))
}
