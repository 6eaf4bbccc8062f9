//! The machine while its process is in the middle of a call.

ghost use Rattle.std.specs.Prelude.{◌≡◌, ℕ, ◌<◌, ◌+◌, ◌*◌, ◌^◌, [], ◌∷◌, false, true, length, None, Some, IsSome, IfOk, OnOk, OnErr, MatchOption};
ghost use Rattle.std.specs.List.{list_any};
ghost use Rattle.edb_lang.specs.Syntax.{nodes};
ghost use Rattle.edb_lang.specs.TermText.{same_name};
ghost use Rattle.edb_lang.specs.Terms as term;
ghost use Rattle.edb_lang.specs.declared.act.ActKind.TheVariants as act;
ghost use Rattle.edb_model.specs.Running.{running, remote_call, value_of, value as valued};
ghost use Rattle.edb_model.specs.Lookup.{first_versions, version_beside};
ghost use Rattle.edb_model.specs.Move as move;
ghost use Rattle.edb_model.specs.Move.{Place, turns, leaves, rewrite, go, outside, look, applied, next, acts};
ghost use Rattle.edb_model.specs.Innermost.{innermost};
ghost use Rattle.edb_eval.specs.Bodies.{outer_bodies, version_or_first};
ghost use Rattle.edb_eval.specs.BodyInfo.{body_info};
ghost use Rattle.edb_eval.specs.Tree.{operation_of, info_of, held, plug, focus_tree, redex_tree, tree, left, at_redex, work, holder_nodes};
ghost use Rattle.edb_eval.specs.Places.{place_of, out_of};
ghost use Rattle.edb_eval.specs.Glances.{kind_of, leftmost, begun, Shows, Displays};
ghost use Rattle.edb_eval.specs.Calls.{called_effect, applied_effect, entry_body, redex_of, Fits, IsNoSum, IsNoCall};
ghost use Rattle.edb_eval.specs.declared.focus.Redex.TheVariants as redex;
ghost use Rattle.edb_eval.specs.declared.focus.Focus.TheVariants as focus;

use crate::body::Body;
use crate::calls::{Called, Entry, Site, call, match_value};
use crate::focus::{Focus, Redex};
use crate::frames::{Frame, Frames, Holder, Info, Operation, Pending, is_among};
use crate::glance::{Cursor, Glance, Kind, Known, code_glance, operands_glance};
use crate::reasons::{failure, mismatch, no_value};
use edb_lang::{ActKind, Class, Expr, ExprNode, Name, Node, Op, Pattern, Rows, Term};
use edb_model::Code;
use std::alloc::{AllocError, Global};
use std::mem;

/// What is round the hole, the innermost Body, and what is evaluated next.
#[derive(Drop)]
pub struct Running<'a> {
    pub frames: Frames<'a>,
    pub here: Info,
    pub focus: Focus<'a>,
}

/// What a move comes to: the call goes on, ends with a value, or is raised.
#[derive(Drop)]
pub enum Outcome {
    Stays,
    Ends(Term),
    Raises { class: Class, reason: Term },
}

/// What an operation comes to: a value; a function that is entered, within the innermost Body or in its
/// place; or an error for this reason.
#[derive(Drop)]
pub enum Applied<'a> {
    Gives(Term),
    Enters(Entry<'a>),
    Replaces(Entry<'a>),
    Fails(Term),
}

impl<'a> Running<'a> {
    /// Goes down to the redex that is next, which leaves the tree as it is; where memory is refused it
    /// may have gone part of the way.
    pub fn reach(&mut self, alloc: Global) -> Result<(), AllocError>
        ensures tree { tree self.new ≡ tree self.old }
        ensures place { self.new.here ≡ self.old.here }
        ensures ok { OnOk result (at_redex self.new.focus ≡ true) }
    {
        while !self.focus.is_redex() {
            self.turn(alloc)?;
        }
        Ok(())
    }

    // Puts this in the place of what was evaluated next.
    fn focus_on(&mut self, focus: Focus<'a>)
        ensures { self.new ≡ record self.old { focus = focus.entry } }
    {
        self.focus = focus;
    }

    // Puts this in the place of the innermost Body.
    fn come_to(&mut self, here: Info)
        ensures { self.new ≡ record self.old { here = here } }
    {
        self.here = here;
    }

    // One step towards the redex.
    fn turn(&mut self, alloc: Global) -> Result<(), AllocError>
        requires { at_redex self.old.focus ≡ false }
        ensures tree { tree self.new ≡ tree self.old }
        ensures place { self.new.here ≡ self.old.here }
        ensures less { OnOk result (work self.new.focus < work self.old.focus) }
    {
        match mem::replace(&mut self.focus, Focus::nothing(alloc)) {
            Focus::Code { around, code } => self.open(alloc, around, code),
            Focus::Given {
                operation,
                done,
                value,
                pending,
            } => self.feed(operation, done, value, pending),
            Focus::Redex(redex) => {
                self.focus_on(Focus::Redex(redex));
                Ok(())
            }
        }
    }

    // Opens code: a literal is a value, and else a node comes round its first part.
    fn open(&mut self, alloc: Global, around: Holder<'a>, code: &'a Expr) -> Result<(), AllocError>
        ensures tree { tree self.new ≡ plug self.old.frames (info_of self.old.here) (held around.entry (running code.entry.now)) }
        ensures place { self.new.here ≡ self.old.here }
        ensures less { OnOk result (work self.new.focus < 2 * (nodes code.entry.now + holder_nodes around.entry)) }
    {
        match &code.node {
            ExprNode::Int(value) => {
                self.focus_on(Focus::arrived(around, Term::int(*value)));
                Ok(())
            }
            ExprNode::Atom(name) => match name.copy(alloc) {
                Ok(name) => {
                    self.focus_on(Focus::arrived(around, Term::atom(name)));
                    Ok(())
                }
                Err(refused) => {
                    self.focus_on(Focus::Code { around, code });
                    Err(refused)
                }
            },
            ExprNode::Var(name) => self.enclose(around, code, Focus::Redex(Redex::Look(name))),
            ExprNode::Match { pattern, value } => {
                let around_value = Holder::Match(pattern);
                let next = Focus::Code {
                    around: around_value,
                    code: value,
                };
                self.enclose(around, code, next)
            }
            ExprNode::Binary { op, left, right } => {
                let pending = Pending {
                    first: Some(right),
                    rest: &[],
                };
                let next = Focus::first_of(alloc, Operation::Operate(*op), left, pending);
                self.enclose(around, code, next)
            }
            ExprNode::Call { name, args } => {
                let pending = Pending {
                    first: None,
                    rest: args,
                };
                let next = Focus::fed(Operation::Local(name), Rows::new(alloc), pending);
                self.enclose(around, code, next)
            }
            ExprNode::Remote { module, name, args } => {
                let pending = Pending {
                    first: Some(name),
                    rest: args,
                };
                let next = Focus::first_of(alloc, Operation::Remote, module, pending);
                self.enclose(around, code, next)
            }
        }
    }

    // Puts a node round what is next; where memory is refused the code stays as it was.
    fn enclose(
        &mut self,
        around: Holder<'a>,
        code: &'a Expr,
        next: Focus<'a>,
    ) -> Result<(), AllocError>
        ensures ok { OnOk result (tree self.new ≡ plug self.old.frames (info_of self.old.here) (held around.entry (focus_tree next.entry))) }
        ensures err { OnErr result (tree self.new ≡ plug self.old.frames (info_of self.old.here) (held around.entry (running code.entry.now))) }
        ensures place { self.new.here ≡ self.old.here }
        ensures next { OnOk result (self.new.focus ≡ next.entry) }
    {
        match self.frames.push_holder(around) {
            Ok(()) => {
                self.focus_on(next);
                Ok(())
            }
            Err(around) => {
                self.focus_on(Focus::Code { around, code });
                Err(AllocError)
            }
        }
    }

    // Puts a value behind the operands before it.
    fn feed(
        &mut self,
        operation: Operation<'a>,
        done: Rows<Term>,
        value: Term,
        pending: Pending<'a>,
    ) -> Result<(), AllocError>
        ensures tree { tree self.new ≡ plug self.old.frames (info_of self.old.here) (focus_tree (focus.Given operation.entry done value pending.entry)) }
        ensures place { self.new.here ≡ self.old.here }
        ensures less { OnOk result (work self.new.focus < work (focus.Given operation.entry done value pending.entry)) }
    {
        let mut values = done.into_vec();
        match values.push(value) {
            Ok(()) => {
                self.focus_on(Focus::fed(operation, Rows::from_vec(values), pending));
                Ok(())
            }
            Err(refused) => {
                self.focus_on(Focus::Given {
                    operation,
                    done: Rows::from_vec(values),
                    value: refused.value,
                    pending,
                });
                Err(AllocError)
            }
        }
    }
}

const MOST_NESTED: usize = 16384;

// Moves, each of which leaves the tree as it is where memory is refused.
impl<'a> Running<'a> {
    /// Makes the move that is next; where memory is refused the tree stays as it was.
    pub fn advance(&mut self, alloc: Global, code: &'a Code) -> Result<Outcome, AllocError>
        requires { self.old.here.level + 1 < 2 ^ 64 }
        ensures ok { IfOk result (λ o. left self.new o ≡ go (rewrite code.now (first_versions code.now)) outside (tree self.old)) }
        ensures err { OnErr result (tree self.new ≡ tree self.old) }
    {
        self.reach(alloc)?;
        match mem::replace(&mut self.focus, Focus::nothing(alloc)) {
            Focus::Redex(redex) => self.fire(alloc, code, redex),
            focus => {
                self.focus_on(focus);
                Ok(Outcome::Stays)
            }
        }
    }

    // Makes the move of a redex that was taken away.
    fn fire(
        &mut self,
        alloc: Global,
        code: &'a Code,
        redex: Redex<'a>,
    ) -> Result<Outcome, AllocError>
        requires { self.old.here.level + 1 < 2 ^ 64 }
        ensures ok { IfOk result (λ o. left self.new o ≡ out_of self.old (rewrite code.now (first_versions code.now) (place_of self.old) (redex_of redex.entry))) }
        ensures err { OnErr result (tree self.new ≡ plug self.old.frames (info_of self.old.here) (redex_tree redex.entry)) }
    {
        match redex {
            Redex::Look(name) => match self.looked(alloc, name) {
                Ok(applied) => self.perform(Redex::Look(name), applied),
                Err(refused) => {
                    self.focus_on(Focus::Redex(Redex::Look(name)));
                    Err(refused)
                }
            },
            Redex::Apply { operation, values } => match self.applied(
                alloc,
                code,
                operation,
                values.as_slice(),
            ) {
                Ok(applied) => self.perform(Redex::Apply { operation, values }, applied),
                Err(refused) => {
                    self.focus_on(Focus::Redex(Redex::Apply { operation, values }));
                    Err(refused)
                }
            },
            Redex::Bind { pattern, value } => self.bind(alloc, pattern, value),
            Redex::Begin { first, rest } => {
                let around = Holder::Sequence {
                    line: first.line,
                    rest,
                };
                self.focus_on(Focus::Code {
                    around,
                    code: first,
                });
                Ok(Outcome::Stays)
            }
            Redex::Follow { value, rest, .. } => match rest.split_first() {
                None => Ok(self.give(value)),
                Some((first, rest)) => {
                    self.focus_on(Focus::Redex(Redex::Begin { first, rest }));
                    Ok(Outcome::Stays)
                }
            },
        }
    }

    // A variable's value.
    #[tactic(auto, using(crate::proofs::Heart::places))]
    fn looked(&self, alloc: Global, name: &Name) -> Result<Applied<'a>, AllocError>
        ensures { IfOk result (λ a. (applied_effect (place_of self.now) a ≡ rewrite [] [] (place_of self.now) (look name.now)) × Fits (length (outer_bodies self.now.frames)) a) }
    {
        match self.here.bindings.get(name) {
            Some(value) => Ok(Applied::Gives(value.copy(alloc)?)),
            None => Ok(Applied::Fails(no_value(alloc, name)?)),
        }
    }

    // What an operation on values comes to.
    fn applied(
        &self,
        alloc: Global,
        code: &'a Code,
        operation: Operation<'a>,
        values: &[Term],
    ) -> Result<Applied<'a>, AllocError>
        requires { self.now.here.level + 1 < 2 ^ 64 }
        ensures { IfOk result (λ a. (applied_effect (place_of self.now) a ≡ applied code.now (first_versions code.now) (place_of self.now) (operation_of operation.entry) values.now) × Fits (length (outer_bodies self.now.frames)) a) }
    {
        match operation {
            Operation::Operate(op) => operated(alloc, op, values),
            Operation::Local(name) => {
                let site = Site {
                    module: &self.here.home,
                    version: self.here.version,
                    inside: true,
                    level: self.here.level,
                };
                let called = call(alloc, code, site, name, values)?;
                self.placed(alloc, called)
            }
            Operation::Remote => self.remote(alloc, code, values),
        }
    }

    // A call whose first two operands are the module and the name.
    fn remote(
        &self,
        alloc: Global,
        code: &'a Code,
        values: &[Term],
    ) -> Result<Applied<'a>, AllocError>
        requires { self.now.here.level + 1 < 2 ^ 64 }
        ensures { IfOk result (λ a. (applied_effect (place_of self.now) a ≡ applied code.now (first_versions code.now) (place_of self.now) remote_call values.now) × Fits (length (outer_bodies self.now.frames)) a) }
    {
        match callee(values) {
            Some((module, name, args)) => {
                let site = Site {
                    module,
                    version: self.version_of(module),
                    inside: false,
                    level: self.here.level,
                };
                let called = call(alloc, code, site, name, args)?;
                self.placed(alloc, called)
            }
            None => Ok(Applied::Fails(failure(alloc, "badarg")?)),
        }
    }

    // A call at its place: one that is all that is left of a Body replaces it, and others nest up to a limit.
    #[tactic(auto, using(crate::proofs::Heart::places))]
    fn placed(&self, alloc: Global, called: Called<'a>) -> Result<Applied<'a>, AllocError>
        ensures { IfOk result (λ a. (applied_effect (place_of self.now) a ≡ called_effect (place_of self.now) called.entry) × Fits (length (outer_bodies self.now.frames)) a) }
    {
        match called {
            Called::Fails(reason) => Ok(Applied::Fails(reason)),
            Called::Enters(entry) => {
                if self.frames.is_tail() {
                    Ok(Applied::Replaces(entry))
                } else if self.frames.bodies() < MOST_NESTED - 1 {
                    Ok(Applied::Enters(entry))
                } else {
                    Ok(Applied::Fails(failure(alloc, "system_limit")?))
                }
            }
        }
    }

    // The version of the innermost Body of this module; 1 where there is none.
    #[tactic(auto, using(crate::proofs::Heart::places))]
    fn version_of(&self, module: &Name) -> u32
        ensures { result ≡ version_or_first (version_beside «module».now (place_of self.now).bodies) }
    {
        if self.here.home.same(module) {
            self.here.version
        } else {
            self.frames.version_of(module)
        }
    }

    // Carries out what a redex comes to.
    fn perform(&mut self, redex: Redex<'a>, applied: Applied<'a>) -> Result<Outcome, AllocError>
        requires { Fits (length (outer_bodies self.old.frames)) applied }
        ensures ok { IfOk result (λ o. left self.new o ≡ out_of self.old (applied_effect (place_of self.old) applied.entry)) }
        ensures err { OnErr result (tree self.new ≡ plug self.old.frames (info_of self.old.here) (redex_tree redex.entry)) }
    {
        match applied {
            Applied::Gives(value) => Ok(self.give(value)),
            Applied::Enters(entry) => self.enter(redex, entry),
            Applied::Replaces(entry) => {
                self.replace(entry);
                Ok(Outcome::Stays)
            }
            Applied::Fails(reason) => Ok(Outcome::Raises {
                class: Class::Error,
                reason,
            }),
        }
    }

    // A Body comes into the innermost one.
    fn enter(&mut self, redex: Redex<'a>, entry: Entry<'a>) -> Result<Outcome, AllocError>
        requires { length (outer_bodies self.old.frames) < 16384 }
        ensures ok { IfOk result (λ o. left self.new o ≡ turns [] (plug self.old.frames (info_of self.old.here) (entry_body entry.entry))) }
        ensures err { OnErr result (tree self.new ≡ plug self.old.frames (info_of self.old.here) (redex_tree redex.entry)) }
    {
        let Entry { here, first, rest } = entry;
        let outer = mem::replace(&mut self.here, here);
        match self.frames.push_body(outer) {
            Ok(()) => {
                self.focus_on(Focus::Redex(Redex::Begin { first, rest }));
                Ok(Outcome::Stays)
            }
            Err(outer) => {
                self.come_to(outer);
                self.focus_on(Focus::Redex(redex));
                Err(AllocError)
            }
        }
    }

    // A Body takes the place of the innermost one.
    fn replace(&mut self, entry: Entry<'a>)
        ensures { turns [] (tree self.new) ≡ out_of self.old (leaves (entry_body entry.entry)) }
    {
        while !self.frames.is_at_body() {
            let _ = self.frames.pop();
        }
        let Entry { here, first, rest } = entry;
        self.come_to(here);
        self.focus_on(Focus::Redex(Redex::Begin { first, rest }));
    }

    // Matches a value; the value stands where the match stood.
    fn bind(
        &mut self,
        alloc: Global,
        pattern: &'a Pattern,
        value: Term,
    ) -> Result<Outcome, AllocError>
        ensures ok { IfOk result (λ o. left self.new o ≡ out_of self.old (rewrite [] [] (place_of self.old) (move.bind pattern.entry.now value))) }
        ensures err { OnErr result (tree self.new ≡ plug self.old.frames (info_of self.old.here) (redex_tree (redex.Bind pattern.entry value))) }
    {
        match match_value(alloc, pattern, &value, &mut self.here.bindings) {
            Ok(true) => Ok(self.give(value)),
            Ok(false) => match mismatch(alloc, &value) {
                Ok(reason) => Ok(Outcome::Raises {
                    class: Class::Error,
                    reason,
                }),
                Err(refused) => {
                    self.focus_on(Focus::Redex(Redex::Bind { pattern, value }));
                    Err(refused)
                }
            },
            Err(refused) => {
                self.focus_on(Focus::Redex(Redex::Bind { pattern, value }));
                Err(refused)
            }
        }
    }

    /// Puts a value at the hole; a Body whose sequence becomes a value ends. Takes no memory.
    pub fn give(&mut self, value: Term) -> Outcome
        ensures { left self.new result ≡ out_of self.old (turns self.old.here.bindings (valued value)) }
    {
        while let Some(frame) = self.frames.pop() {
            match frame {
                Frame::Holder(holder) => {
                    self.focus_on(Focus::arrived(holder, value));
                    return Outcome::Stays;
                }
                Frame::Body(outer) => self.come_to(outer),
            }
        }
        Outcome::Ends(value)
    }
}

// What is seen of the Bodies round what is next.
impl<'a> Running<'a> {
    /// The innermost Body; takes no memory.
    pub fn innermost(&self) -> Body<'_>
        ensures { Some (body_info result) ≡ innermost (tree self.now) }
    {
        self.here.seen()
    }

    /// Whether some Body round what is next is of one of these modules; takes no memory.
    pub fn is_inside(&self, modules: &[Name]) -> bool
        ensures { result ≡ list_any (λ b. list_any (same_name b.0) modules.now) (move.redex (tree self.now)).0.bodies }
    {
        is_among(&self.here.home, modules) || self.frames.is_inside(modules)
    }
}

// What is seen of the next move.
impl<'a> Running<'a> {
    /// What is next; takes no memory.
    pub fn kind(&self) -> Kind<'_>
        ensures { kind_of result ≡ next (tree self.now) }
    {
        match self.focus.begun() {
            Some(first) => Kind::Begin {
                module: &self.here.home,
                line: first.line,
            },
            None => match self.glance() {
                Glance::Pure => Kind::Pure,
                Glance::Display(_) => Kind::Act(ActKind::Print),
            },
        }
    }

    /// A copy of the operand of the display that is next; refused only for want of memory.
    pub fn operand(&self, alloc: Global) -> Result<Term, AllocError>
        requires { next (tree self.now) ≡ acts act.Print }
        ensures { IfOk result (λ v. Displays (move.redex (tree self.now)).1 v) }
    {
        match self.glance() {
            Glance::Pure => unreachable!(),
            Glance::Display(known) => known.copy(alloc),
        }
    }

    // What stands at the redex, where that isn't the begin of an expression.
    fn glance(&self) -> Glance<'_>
        requires { begun self.now.focus ≡ None }
        ensures { Shows result (leftmost (focus_tree self.now.focus)) }
    {
        match &self.focus {
            Focus::Code { around, code } => match code_glance(code) {
                Some(glance) => glance,
                None => literal_glance(around, code),
            },
            Focus::Given {
                operation,
                done,
                value,
                pending,
            } => {
                let operands = Cursor {
                    done: done.as_slice(),
                    current: Some(Known::Held(value)),
                    pending: *pending,
                };
                operands_glance(*operation, operands)
            }
            Focus::Redex(Redex::Look(_)) => Glance::Pure,
            Focus::Redex(Redex::Apply { operation, values }) => {
                let pending = Pending {
                    first: None,
                    rest: &[],
                };
                let operands = Cursor {
                    done: values.as_slice(),
                    current: None,
                    pending,
                };
                operands_glance(*operation, operands)
            }
            Focus::Redex(Redex::Bind { .. }) => Glance::Pure,
            Focus::Redex(Redex::Begin { .. }) => unreachable!(),
            Focus::Redex(Redex::Follow { .. }) => Glance::Pure,
        }
    }
}

// What stands at the redex of a node with a literal in its hole.
fn literal_glance<'m>(around: &'m Holder<'_>, code: &'m Expr) -> Glance<'m>
    requires { IsSome (value_of (running code.now)) }
    ensures { Shows result (leftmost (held around.now (running code.now))) }
{
    match around {
        Holder::Operands {
            operation,
            done,
            pending,
        } => {
            let operands = Cursor {
                done: done.as_slice(),
                current: Some(Known::Code(code)),
                pending: *pending,
            };
            operands_glance(*operation, operands)
        }
        Holder::Match(_) => Glance::Pure,
        Holder::Sequence { .. } => Glance::Pure,
    }
}

// What an operator comes to.
fn operated<'a>(alloc: Global, op: Op, values: &[Term]) -> Result<Applied<'a>, AllocError>
    ensures { IfOk result (λ a. ((p : Place) → applied_effect p a ≡ move.operated p op values.now) × ((n : ℕ) → Fits n a)) }
{
    match op {
        Op::Add => match addends(values) {
            Some((left, right)) => match left.checked_add(right) {
                Some(sum) => Ok(Applied::Gives(Term::int(sum))),
                None => Ok(Applied::Fails(failure(alloc, "system_limit")?)),
            },
            None => Ok(Applied::Fails(failure(alloc, "badarith")?)),
        },
    }
}

// The two integers that an addition has as its operands.
fn addends(values: &[Term]) -> Option<(i128, i128)>
    ensures { MatchOption result (IsNoSum values.now) (λ p. values.now ≡ term.int p.0 ∷ (term.int p.1 ∷ [])) }
{
    let (left, values) = values.split_first()?;
    let (right, values) = values.split_first()?;
    if !values.is_empty() {
        return None;
    }
    match (&left.node, &right.node) {
        (Node::Int(left), Node::Int(right)) => Some((*left, *right)),
        _ => None,
    }
}

// The module, the name and the arguments of a call.
fn callee(values: &[Term]) -> Option<(&Name, &Name, &[Term])>
    ensures { MatchOption result (IsNoCall values.now) (λ p. values.now ≡ term.atom p.0.now ∷ (term.atom p.1.now ∷ p.2.now)) }
{
    let (module, values) = values.split_first()?;
    let (name, args) = values.split_first()?;
    match (&module.node, &name.node) {
        (Node::Atom(module), Node::Atom(name)) => Some((module, name, args)),
        _ => None,
    }
}
