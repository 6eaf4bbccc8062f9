//! What holds of the layout.

ghost use Rattle.std.specs.Prelude.{◌≡◌, ◌≤◌, ℕ, List, length};
ghost use Rattle.edb_scan.specs.declared.lexeme.Placed.{Placed};
ghost use Rattle.edb_scan.specs.Parting.{AreTokens, longest_file};
ghost use Rattle.edb_syntax.specs.Syntax.{ModuleTree};
ghost use Rattle.edb_grammar.specs.Files.{ReadsFile};
ghost use Rattle.edb_print.specs.Pieces.{tokens_of};
ghost use Rattle.edb_print.specs.Layout.{lay_module, text_of};
ghost use Rattle.edb_print.specs.Unlined.{unlined_module};

/// A module that the grammar reads from a text's tokens is read again from the tokens of its layout, each on its line:
/// it is the same but for lines.
pub fn layout_reads()
    ensures { (bytes : List ℕ) (tokens : List Placed) (m : ModuleTree) → AreTokens bytes tokens → ReadsFile tokens m
        → (w : ModuleTree) × ReadsFile (tokens_of 1 (lay_module m)) w × (unlined_module w ≡ unlined_module m) }
{}

/// What `module_text` writes of a module that the grammar reads from a text's tokens is a text again, if it has at most
/// 1,000,000 bytes: its tokens read as the same module but for lines.
pub fn printed_reads()
    ensures { (bytes : List ℕ) (tokens : List Placed) (m : ModuleTree) → AreTokens bytes tokens → ReadsFile tokens m
        → length (text_of m) ≤ longest_file
        → (printed : List Placed) × (w : ModuleTree) × AreTokens (text_of m) printed × ReadsFile printed w × (unlined_module w ≡ unlined_module m) }
{}
