//! Laws of the grammar: no tokens have two trees.

ghost use Rattle.std.specs.Prelude.{◌≡◌, ◌⊎◌, ℕ, List};
ghost use Rattle.edb_scan.specs.declared.lexeme.Placed.{Placed};
ghost use Rattle.edb_lang.specs.Terms.{Datum};
ghost use Rattle.edb_syntax.specs.Syntax.{Exp, ModuleTree};
ghost use Rattle.edb_grammar.specs.Toks.{Tok};
ghost use Rattle.edb_grammar.specs.Expressions.{Reads};
ghost use Rattle.edb_grammar.specs.Forms.{FormTree, ReadsForm};
ghost use Rattle.edb_grammar.specs.Files.{ReadsFile};
ghost use Rattle.edb_grammar.specs.Faults.{IsFault};
ghost use Rattle.edb_grammar.specs.Literals.{IsLiteral};

/// Tokens are one expression at most, whatever level stands outermost.
pub fn one_expression()
    ensures { (m j k : ℕ) (ts : List Tok) (d e : Exp) → Reads m j ts d → Reads m k ts e → d ≡ e }
{}

/// Tokens are one form at most.
pub fn one_form()
    ensures { (ts : List Tok) (f g : FormTree) → ReadsForm ts f → ReadsForm ts g → f ≡ g }
{}

/// The tokens of a text are one module, or have one fault: the first form without a tree, and its line.
pub fn one_module()
    ensures tree { (ts : List Placed) (m w : ModuleTree) → ReadsFile ts m → ReadsFile ts w → m ≡ w }
    ensures fault { (ts : List Placed) (i j k l : ℕ) → IsFault ts i j → IsFault ts k l → (i ≡ k) × (j ≡ l) }
    ensures never_both { (ts : List Placed) (m : ModuleTree) (k l : ℕ) → ReadsFile ts m → IsFault ts k l → ⊥ }
    ensures one_of_both { (ts : List Placed) → ((m : ModuleTree) × ReadsFile ts m) ⊎ ((k : ℕ) × (l : ℕ) × IsFault ts k l) }
{}

/// Tokens are one literal term at most.
pub fn one_literal()
    ensures { (ts : List Placed) (t u : Datum) → IsLiteral ts t → IsLiteral ts u → t ≡ u }
{}
