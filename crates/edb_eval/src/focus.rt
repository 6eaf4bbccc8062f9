//! What is evaluated next.

ghost use Rattle.std.specs.Prelude.{◌≡◌, ◌++◌, ◌∷◌, ◌+◌, ◌*◌, ◌≤◌, []};
ghost use Rattle.std.specs.Option.{option_copied};
ghost use Rattle.edb_eval.specs.Glances.{begun, begun_redex};
ghost use Rattle.edb_model.specs.Running.{node, value as valued, all_running};
ghost use Rattle.edb_eval.specs.Tree.{pending_exps, held, operands, focus_tree, operation_of, at_redex, work, holder_nodes};
ghost use Rattle.edb_lang.specs.Syntax.{nodes, all_nodes, more};

use crate::frames::{Holder, Operation, Pending};
use edb_lang::{Expr, Name, Pattern, Rows, Term};
use std::alloc::Global;

/// What a move changes: a variable; an operation on values; a match of a value; a sequence that is not
/// begun; a sequence whose first expression is a value.
#[derive(Drop)]
pub enum Redex<'a> {
    Look(&'a Name),
    Apply {
        operation: Operation<'a>,
        values: Rows<Term>,
    },
    Bind {
        pattern: &'a Pattern,
        value: Term,
    },
    Begin {
        first: &'a Expr,
        rest: &'a [Expr],
    },
    Follow {
        value: Term,
        line: u32,
        rest: &'a [Expr],
    },
}

/// What is evaluated next: code in a node's hole, which may be a literal; a value that is put behind the
/// operands before it; or a redex.
#[derive(Drop)]
pub enum Focus<'a> {
    Code {
        around: Holder<'a>,
        code: &'a Expr,
    },
    Given {
        operation: Operation<'a>,
        done: Rows<Term>,
        value: Term,
        pending: Pending<'a>,
    },
    Redex(Redex<'a>),
}

impl<'a> Redex<'a> {
    // The expression that is begun next, where one is.
    fn begun(&self) -> Option<&'a Expr>
        ensures { option_copied result ≡ begun_redex self.now }
    {
        match self {
            Redex::Look(_) => None,
            Redex::Apply { .. } => None,
            Redex::Bind { .. } => None,
            Redex::Begin { first, .. } => Some(*first),
            Redex::Follow { .. } => None,
        }
    }
}

impl<'a> Focus<'a> {
    /// The expression that is begun next, where one is.
    pub fn begun(&self) -> Option<&'a Expr>
        ensures { option_copied result ≡ begun self.now }
    {
        match self {
            Focus::Code { .. } => None,
            Focus::Given { .. } => None,
            Focus::Redex(redex) => redex.begun(),
        }
    }

    /// Stands where a focus was taken away; takes no memory.
    pub fn nothing(alloc: Global) -> Focus<'a> {
        Focus::Redex(Redex::Apply {
            operation: Operation::Remote,
            values: Rows::new(alloc),
        })
    }

    /// Whether this is a redex.
    pub fn is_redex(&self) -> bool
        ensures { result ≡ at_redex self.now }
    {
        match self {
            Focus::Code { .. } => false,
            Focus::Given { .. } => false,
            Focus::Redex(_) => true,
        }
    }

    /// What is next once the hole of a node has a value.
    pub fn arrived(holder: Holder<'a>, value: Term) -> Focus<'a>
        ensures tree { focus_tree result ≡ held holder.entry (valued value) }
        ensures less { work result ≤ 2 * holder_nodes holder.entry + 1 }
    {
        match holder {
            Holder::Operands {
                operation,
                done,
                pending,
            } => Focus::Given {
                operation,
                done,
                value,
                pending,
            },
            Holder::Match(pattern) => Focus::Redex(Redex::Bind { pattern, value }),
            Holder::Sequence { line, rest } => Focus::Redex(Redex::Follow { value, line, rest }),
        }
    }

    /// What is next in an operation of which no operand is begun.
    pub fn first_of(
        alloc: Global,
        operation: Operation<'a>,
        code: &'a Expr,
        pending: Pending<'a>,
    ) -> Focus<'a>
        ensures tree { focus_tree result ≡ node (operation_of operation.entry) (all_running (more code.entry.now (pending_exps pending.entry))) }
        ensures less { work result ≤ 2 * (nodes code.entry.now + all_nodes (pending_exps pending.entry)) }
    {
        Focus::Code {
            around: Holder::Operands {
                operation,
                done: Rows::new(alloc),
                pending,
            },
            code,
        }
    }

    /// What is next once these operands are values: the operand behind them, or the operation.
    pub fn fed(operation: Operation<'a>, values: Rows<Term>, pending: Pending<'a>) -> Focus<'a>
        ensures tree { focus_tree result ≡ node (operation_of operation.entry) (operands values (all_running (pending_exps pending.entry))) }
        ensures less { work result ≤ 2 * all_nodes (pending_exps pending.entry) }
    {
        match pending.split() {
            None => Focus::Redex(Redex::Apply { operation, values }),
            Some((code, pending)) => Focus::Code {
                around: Holder::Operands {
                    operation,
                    done: values,
                    pending,
                },
                code,
            },
        }
    }
}
