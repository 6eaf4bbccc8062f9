//! The arguments of a call, by how many there are.

ghost use Rattle.std.specs.Prelude.{◌≡◌, ◌∷◌, [], length, map};

use edb_lang::Term;

// The one argument.
pub(crate) fn one<'a>(args: &[&'a Term]) -> &'a Term
    requires { length args.now ≡ 1 }
    ensures { map (λ a. a.now) args.now ≡ result.now ∷ [] }
{
    args[0]
}

// The two arguments.
pub(crate) fn two<'a>(args: &[&'a Term]) -> (&'a Term, &'a Term)
    requires { length args.now ≡ 2 }
    ensures { map (λ a. a.now) args.now ≡ result.0.now ∷ result.1.now ∷ [] }
{
    (args[0], args[1])
}

// The three arguments.
pub(crate) fn three<'a>(args: &[&'a Term]) -> (&'a Term, &'a Term, &'a Term)
    requires { length args.now ≡ 3 }
    ensures { map (λ a. a.now) args.now ≡ result.0.now ∷ result.1.now ∷ result.2.now ∷ [] }
{
    (args[0], args[1], args[2])
}

// The four arguments.
pub(crate) fn four<'a>(args: &[&'a Term]) -> (&'a Term, &'a Term, &'a Term, &'a Term)
    requires { length args.now ≡ 4 }
    ensures { map (λ a. a.now) args.now ≡ result.0.now ∷ result.1.now ∷ result.2.now ∷ result.3.now ∷ [] }
{
    (args[0], args[1], args[2], args[3])
}
