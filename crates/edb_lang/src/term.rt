//! Terms: the values of the language, with their order, height, size and limits.

ghost use Rattle.std.specs.Prelude.{◌≡◌, ◌+◌, ◌-◌, ◌^◌, ◌<◌, ◌↔◌, IfOk, IsTrue};
ghost use Rattle.edb_lang.specs.Terms as spec;
ghost use Rattle.edb_lang.specs.Order.{rank, term_cmp, terms_cmp, captures_cmp};
ghost use Rattle.edb_lang.specs.Limits.{Walked, limited};
ghost use Rattle.edb_lang.specs.TermViews.{captures_in, fun_of};

use crate::Name;
use std::alloc::{AllocError, Global};
use std::cmp::Ordering;
use std::marker::Model;

/// A term. Contracts see a `Datum`.
#[cycle(term)]
#[derive(Drop)]
pub struct Term {
    pub node: Node,
}

/// What a term is.
#[cycle(term)]
#[derive(Drop)]
pub enum Node {
    Int(i128),
    Atom(Name),
    Ref(u32),
    Fun(Box<FunValue>),
    Pid(u32),
    Tuple(Vec<Term>),
    Nil,
    List(Box<Cell>),
}

/// A list cell: the first element and the list behind it, which may end in any term.
#[cycle(term)]
#[derive(Drop)]
pub struct Cell {
    pub head: Term,
    pub tail: Term,
}

/// A fun: made by a fun expression, which has a place among those of a version of its module and took
/// variables along, or naming a function.
#[cycle(term)]
#[derive(Drop)]
pub enum FunValue {
    Made {
        module: Name,
        version: u32,
        index: u32,
        arity: u32,
        captured: Vec<Captured>,
    },
    Named {
        module: Name,
        name: Name,
        arity: u32,
    },
}

/// A variable and its value.
#[cycle(term)]
#[derive(Drop)]
pub struct Captured {
    pub name: Name,
    pub value: Term,
}

impl Model for Term {
    ghost use Rattle.edb_lang.specs.Terms.{Datum, size as term_size};
    ghost use Rattle.edb_lang.specs.TermCodes.{coded_datum};

    ghost Value = { Datum };

    ghost coded = { coded_datum };

    ghost use Rattle.edb_lang.specs.TermViews.{datum_of};

    ghost view = { λ t. datum_of t.node };

    ghost size = { term_size };

    ghost use Rattle.edb_lang.specs.TermFalls.{node_falls};

    ghost size_decreases = { λ t h. node_falls t.node };
}

/// The refusal of a term that would be more than 4,000 high or 100,000 large.
#[derive(Clone, Copy, PartialEq, Eq, Debug)]
pub struct Limit;

// A term is at most so high and so large.
pub(crate) const MOST_HIGH: u32 = 4_000;

const MOST_LARGE: u32 = 100_000;

// The height and the size of a term, or of terms beside one another.
#[derive(Clone, Copy)]
struct Extent {
    height: u32,
    size: u32,
}

impl Extent {
    // That of a term with these parts.
    fn above(self) -> Extent
        requires low { self.height < 2 ^ 32 - 1 }
        requires small { self.size < 2 ^ 32 - 1 }
        ensures height { result.height ≡ self.height + 1 }
        ensures size { result.size ≡ self.size + 1 }
    {
        Extent {
            height: self.height + 1,
            size: self.size + 1,
        }
    }
}

impl Term {
    /// The integer.
    pub fn int(value: i128) -> Term
        ensures { result ≡ spec.int value }
    {
        Term {
            node: Node::Int(value),
        }
    }

    /// The atom of this name.
    pub fn atom(name: Name) -> Term
        ensures { result ≡ spec.atom name }
    {
        Term {
            node: Node::Atom(name),
        }
    }

    /// The reference of this number.
    pub fn reference(number: u32) -> Term
        ensures { result ≡ spec.reference number }
    {
        Term {
            node: Node::Ref(number),
        }
    }

    /// The pid of this number.
    pub fn pid(number: u32) -> Term
        ensures { result ≡ spec.pid number }
    {
        Term {
            node: Node::Pid(number),
        }
    }

    /// The empty list.
    pub fn nil() -> Term
        ensures { result ≡ spec.nil }
    {
        Term { node: Node::Nil }
    }
}

impl Term {
    /// How high the term is, from 0 to 4,000.
    pub fn height(&self) -> u32
        requires { spec.IsWithin self.now }
        ensures { result ≡ spec.height self.now }
    {
        self.walk(MOST_HIGH, MOST_LARGE).unwrap().height
    }

    /// How large the term is, from 1 to 100,000.
    pub fn size(&self) -> u32
        requires { spec.IsWithin self.now }
        ensures { result ≡ spec.size self.now }
    {
        self.walk(MOST_HIGH, MOST_LARGE).unwrap().size
    }

    // Both in one walk, which ends early where the height is above `levels` or the size above `room`.
    #[cycle(walk)]
    fn walk(&self, levels: u32, room: u32) -> Option<Extent>
        ensures { Walked levels room (spec.height self.now) (spec.size self.now) result }
    {
        match &self.node {
            Node::Fun(fun) => fun.walk(levels, room),
            Node::Tuple(items) => {
                let levels = levels.checked_sub(1)?;
                let room = room.checked_sub(1)?;
                let parts = walk_terms(items, levels, room)?;
                Some(parts.above())
            }
            Node::List(cell) => {
                let levels = levels.checked_sub(1)?;
                let room = room.checked_sub(1)?;
                let head = cell.head.walk(levels, room)?;
                let tail = cell.tail.walk(levels, room - head.size)?;
                Some(Extent {
                    height: head.height.max(tail.height) + 1,
                    size: head.size + tail.size + 1,
                })
            }
            _ => {
                if room == 0 {
                    return None;
                }
                Some(Extent { height: 0, size: 1 })
            }
        }
    }
}

impl FunValue {
    // As a term's walk.
    #[cycle(walk)]
    fn walk(&self, levels: u32, room: u32) -> Option<Extent>
        ensures { Walked levels room (spec.height (fun_of self.now)) (spec.size (fun_of self.now)) result }
    {
        let levels = levels.checked_sub(1)?;
        let room = room.checked_sub(1)?;
        match self {
            FunValue::Made { captured, .. } => {
                let parts = walk_captured(captured, levels, room)?;
                Some(parts.above())
            }
            FunValue::Named { .. } => Some(Extent { height: 1, size: 1 }),
        }
    }
}

#[cycle(walk)]
fn walk_terms(terms: &[Term], levels: u32, room: u32) -> Option<Extent>
    ensures { Walked levels room (spec.heights (spec.of_list terms.now)) (spec.sizes (spec.of_list terms.now)) result }
{
    let mut height = 0;
    let mut size = 0;
    for term in terms {
        let part = term.walk(levels, room - size)?;
        height = part.height.max(height);
        size += part.size;
    }
    Some(Extent { height, size })
}

#[cycle(walk)]
fn walk_captured(captured: &[Captured], levels: u32, room: u32) -> Option<Extent>
    ensures { Walked levels room (spec.captures_height (captures_in captured.now)) (spec.captures_size (captures_in captured.now)) result }
{
    let mut height = 0;
    let mut size = 0;
    for pair in captured {
        let part = pair.value.walk(levels, room - size)?;
        height = part.height.max(height);
        size += part.size;
    }
    Some(Extent { height, size })
}

impl Term {
    /// A list cell. `Limit` where it would be more than 4,000 high or 100,000 large; `AllocError` only for
    /// want of memory.
    pub fn cons(alloc: Global, head: Term, tail: Term) -> Result<Result<Term, Limit>, AllocError>
        ensures { IfOk result (λ made. made ≡ limited (spec.cons head tail)) }
    {
        let cell = Box::new(alloc, Cell { head, tail })?;
        let term = Term {
            node: Node::List(cell),
        };
        Ok(term.within())
    }

    /// A tuple. `Limit` where it would be more than 4,000 high or 100,000 large; `AllocError` only for want
    /// of memory.
    pub fn tuple(alloc: Global, items: Vec<Term>) -> Result<Result<Term, Limit>, AllocError>
        ensures { IfOk result (λ made. made ≡ limited (spec.tuple (spec.of_list items.items))) }
    {
        let term = Term {
            node: Node::Tuple(items),
        };
        Ok(term.within())
    }

    // The term, unless it is past a limit.
    pub(crate) fn within(self) -> Result<Term, Limit>
        ensures { result ≡ limited self }
    {
        if self.walk(MOST_HIGH, MOST_LARGE).is_none() {
            return Err(Limit);
        }
        Ok(self)
    }

    fn fun(alloc: Global, fun: FunValue) -> Result<Term, AllocError>
        ensures { IfOk result (λ t. t ≡ fun_of fun) }
    {
        let fun = Box::new(alloc, fun)?;
        Ok(Term {
            node: Node::Fun(fun),
        })
    }

    /// An equal term; refused only for want of memory.
    #[cycle(copy_term)]
    pub fn copy(&self, alloc: Global) -> Result<Term, AllocError>
        ensures { IfOk result (λ t. t ≡ self.now) }
    {
        match &self.node {
            Node::Int(value) => Ok(Term::int(*value)),
            Node::Atom(name) => Ok(Term::atom(name.copy(alloc)?)),
            Node::Ref(number) => Ok(Term::reference(*number)),
            Node::Fun(fun) => fun.copy(alloc),
            Node::Pid(number) => Ok(Term::pid(*number)),
            Node::Tuple(items) => {
                let items = copy_terms(alloc, items)?;
                Ok(Term {
                    node: Node::Tuple(items),
                })
            }
            Node::Nil => Ok(Term::nil()),
            Node::List(cell) => {
                let head = cell.head.copy(alloc)?;
                let tail = cell.tail.copy(alloc)?;
                let cell = Box::new(alloc, Cell { head, tail })?;
                Ok(Term {
                    node: Node::List(cell),
                })
            }
        }
    }
}

impl FunValue {
    // A term of an equal fun.
    #[cycle(copy_term)]
    fn copy(&self, alloc: Global) -> Result<Term, AllocError>
        ensures { IfOk result (λ t. t ≡ fun_of self.now) }
    {
        match self {
            FunValue::Made {
                module,
                version,
                index,
                arity,
                captured,
            } => {
                let fun = FunValue::Made {
                    module: module.copy(alloc)?,
                    version: *version,
                    index: *index,
                    arity: *arity,
                    captured: copy_captured(alloc, captured)?,
                };
                Term::fun(alloc, fun)
            }
            FunValue::Named {
                module,
                name,
                arity,
            } => {
                let fun = FunValue::Named {
                    module: module.copy(alloc)?,
                    name: name.copy(alloc)?,
                    arity: *arity,
                };
                Term::fun(alloc, fun)
            }
        }
    }
}

#[cycle(copy_term)]
fn copy_terms(alloc: Global, terms: &[Term]) -> Result<Vec<Term>, AllocError>
    ensures { IfOk result (λ copies. copies.items ≡ terms.now) }
{
    let mut copies = Vec::new(alloc);
    for term in terms {
        copies.push(term.copy(alloc)?)?;
    }
    Ok(copies)
}

#[cycle(copy_term)]
pub(crate) fn copy_captured(
    alloc: Global,
    captured: &[Captured],
) -> Result<Vec<Captured>, AllocError>
    ensures { IfOk result (λ copies. copies.items ≡ captured.now) }
{
    let mut copies = Vec::new(alloc);
    for pair in captured {
        let name = pair.name.copy(alloc)?;
        let value = pair.value.copy(alloc)?;
        copies.push(Captured { name, value })?;
    }
    Ok(copies)
}

impl Term {
    /// The order of terms: integers, atoms, references, funs, pids, tuples, the empty list, list cells.
    #[cycle(compare)]
    pub fn cmp(&self, other: &Term) -> Ordering
        ensures { result ≡ term_cmp self.now other.now }
    {
        match (&self.node, &other.node) {
            (Node::Int(left), Node::Int(right)) => left.cmp(right),
            (Node::Atom(left), Node::Atom(right)) => left.cmp(right),
            (Node::Ref(left), Node::Ref(right)) => left.cmp(right),
            (Node::Fun(left), Node::Fun(right)) => left.cmp(right),
            (Node::Pid(left), Node::Pid(right)) => left.cmp(right),
            (Node::Tuple(left), Node::Tuple(right)) => {
                let by_size = left.len().cmp(&right.len());
                if by_size.is_ne() {
                    return by_size;
                }
                cmp_terms(left, right)
            }
            (Node::Nil, Node::Nil) => Ordering::Equal,
            (Node::List(left), Node::List(right)) => {
                let by_head = left.head.cmp(&right.head);
                if by_head.is_ne() {
                    return by_head;
                }
                left.tail.cmp(&right.tail)
            }
            _ => self.rank().cmp(&other.rank()),
        }
    }

    /// Whether the two are one term.
    pub fn same(&self, other: &Term) -> bool
        ensures { IsTrue result ↔ (self.now ≡ other.now) }
    {
        self.cmp(other).is_eq()
    }

    // The place of its kind in the order.
    fn rank(&self) -> u8
        ensures { result ≡ rank self.now }
    {
        match &self.node {
            Node::Int(_) => 0,
            Node::Atom(_) => 1,
            Node::Ref(_) => 2,
            Node::Fun(fun) => fun.rank(),
            Node::Pid(_) => 5,
            Node::Tuple(_) => 6,
            Node::Nil => 7,
            Node::List(_) => 8,
        }
    }
}

impl FunValue {
    #[cycle(compare)]
    fn cmp(&self, other: &FunValue) -> Ordering
        ensures { result ≡ term_cmp (fun_of self.now) (fun_of other.now) }
    {
        match (self, other) {
            (
                FunValue::Made {
                    module,
                    version,
                    index,
                    arity,
                    captured,
                },
                FunValue::Made {
                    module: other_module,
                    version: other_version,
                    index: other_index,
                    arity: other_arity,
                    captured: other_captured,
                },
            ) => {
                let by_place = index.cmp(other_index).then(arity.cmp(other_arity));
                let by_version = version.cmp(other_version).then(by_place);
                let by_module = module.cmp(other_module).then(by_version);
                if by_module.is_ne() {
                    return by_module;
                }
                cmp_captured(captured, other_captured)
            }
            (
                FunValue::Named {
                    module,
                    name,
                    arity,
                },
                FunValue::Named {
                    module: other_module,
                    name: other_name,
                    arity: other_arity,
                },
            ) => {
                let by_name = name.cmp(other_name).then(arity.cmp(other_arity));
                module.cmp(other_module).then(by_name)
            }
            (FunValue::Made { .. }, FunValue::Named { .. }) => Ordering::Less,
            (FunValue::Named { .. }, FunValue::Made { .. }) => Ordering::Greater,
        }
    }

    fn rank(&self) -> u8
        ensures { result ≡ rank (fun_of self.now) }
    {
        match self {
            FunValue::Made { .. } => 3,
            FunValue::Named { .. } => 4,
        }
    }
}

#[cycle(compare)]
fn cmp_terms(left: &[Term], right: &[Term]) -> Ordering
    ensures { result ≡ terms_cmp (spec.of_list left.now) (spec.of_list right.now) }
{
    for (x, y) in left.iter().zip(right) {
        let by_element = x.cmp(y);
        if by_element.is_ne() {
            return by_element;
        }
    }
    Ordering::Equal
}

#[cycle(compare)]
fn cmp_captured(first: &[Captured], second: &[Captured]) -> Ordering
    ensures { result ≡ captures_cmp (captures_in first.now) (captures_in second.now) }
{
    for (x, y) in first.iter().zip(second) {
        let by_name = x.name.cmp(&y.name);
        if by_name.is_ne() {
            return by_name;
        }
        let by_value = x.value.cmp(&y.value);
        if by_value.is_ne() {
            return by_value;
        }
    }
    first.len().cmp(&second.len())
}
