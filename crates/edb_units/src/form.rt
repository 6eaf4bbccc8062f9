//! Fun forms.

use edb_lang::Name;
use edb_syntax::Clause;

/// A fun form of a module, and its place among them, counted from 0 in the order of their `fun` tokens.
#[derive(Clone, Copy)]
pub enum Form<'a> {
    /// `fun (..) -> .. end`: its clauses.
    Clauses {
        index: u32,
        clauses: &'a [Clause],
    },
    /// `fun f/2`: a function of the module itself, by its name and arity.
    Local {
        index: u32,
        name: &'a Name,
        arity: u32,
    },
}

impl<'a> Form<'a> {
    ghost use Rattle.std.specs.Prelude.{◌≡◌};
    ghost use Rattle.edb_syntax.specs.FunForms.{place_of};
    ghost use Rattle.edb_units.specs.Forms.{form_of};

    /// Its place among the fun forms of its module.
    pub fn index(&self) -> u32
        ensures { result ≡ place_of (form_of self.now) }
    {
        match self {
            Form::Clauses { index, .. } => *index,
            Form::Local { index, .. } => *index,
        }
    }
}
