//! What holds of verdicts.

ghost use Rattle.std.specs.Prelude.{◌≡◌, ℕ, List};
ghost use Rattle.edb_syntax.specs.Syntax.{ModuleTree};
ghost use Rattle.edb_verdict.specs.Bounds.{IsBounded};
ghost use Rattle.edb_verdict.specs.TreeBounds.{HasBoundedTrees};
ghost use Rattle.edb_verdict.specs.declared.fault.ModuleFault.{ModuleFault};
ghost use Rattle.edb_verdict.specs.Verdicts.{HasFault, IsAccepted};

/// A text is one module at most, has one fault at most, and never both.
pub fn one_verdict_a_text()
    ensures one_module { (text : List ℕ) (m w : ModuleTree) → IsAccepted text m → IsAccepted text w → m ≡ w }
    ensures one_fault { (text : List ℕ) (f g : ModuleFault) → HasFault text f → HasFault text g → f ≡ g }
    ensures never_both { (text : List ℕ) (m : ModuleTree) (f : ModuleFault) → IsAccepted text m → HasFault text f → ⊥ }
{}

/// The name of a module that is accepted, and of each of its functions and exports, has at most 255 characters, and no
/// arity is above 255.
pub fn accepted_is_bounded()
    ensures { (text : List ℕ) (m : ModuleTree) → IsAccepted text m → IsBounded m }
{}

/// In the functions of a module that is accepted, each atom has at most 255 characters, also the name of what is called
/// and of what a fun is made of. No clause has more than 255 patterns, and no fun names an arity above 255.
pub fn trees_are_bounded()
    ensures { (text : List ℕ) (m : ModuleTree) → IsAccepted text m → HasBoundedTrees m }
{}
