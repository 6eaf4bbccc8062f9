//! What holds of scopes and of verdicts.

ghost use Rattle.std.specs.Prelude.{◌≡◌, ◌⊎◌, ◌∷◌, ℕ, List, [], map};
ghost use Rattle.edb_syntax.specs.Syntax.{ModuleTree};
ghost use Rattle.edb_check.specs.declared.fault.CheckFault.{CheckFault};
ghost use Rattle.edb_check.specs.Faults.{IsFirst};
ghost use Rattle.edb_check.specs.Scopes.{Scope, lookup, join, together};
ghost use Rattle.edb_check.specs.Modules.{module_faults};

/// Ways of which one is taken bind a name as each of them does, told together.
pub fn bound_by_each_way()
    ensures { (x : List ℕ) (w : Scope) (ws : List Scope) → lookup x (join (w ∷ ws)) ≡ together (map (lookup x) (w ∷ ws)) }
{}

/// Of several faults one alone is the first.
pub fn one_verdict()
    ensures { (fs : List CheckFault) (f g : CheckFault) → IsFirst f fs → IsFirst g fs → f ≡ g }
{}

/// A module is accepted, or some fault of it is the first.
pub fn accepted_or_refused()
    ensures { (m : ModuleTree) → (module_faults m ≡ []) ⊎ ((f : CheckFault) × IsFirst f (module_faults m)) }
{}

/// No module is both.
pub fn never_both()
    ensures { (m : ModuleTree) (f : CheckFault) → module_faults m ≡ [] → IsFirst f (module_faults m) → ⊥ }
{}
