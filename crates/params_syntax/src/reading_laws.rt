//! What holds of reading every text.
ghost use Rattle.std.specs.Prelude.{◌≡◌, ℕ, List};
ghost use Rattle.std.specs.declared.result.Result.{Result};
ghost use Rattle.params_syntax.specs.declared.fault.SyntaxFault.{SyntaxFault};
ghost use Rattle.params_syntax.specs.declared.tree.Group.{Group};
ghost use Rattle.params_syntax.specs.Reading.{ReadsAs};

/// A text has at most one tree, at most one first fault, and not both.
pub fn one_reading()
    ensures one { (text : List ℕ) (a b : Result (List Group) SyntaxFault) → ReadsAs text a → ReadsAs text b → a ≡ b }
{}

/// Each text has a tree or a first fault.
pub fn each_text_reads()
    ensures some { (text : List ℕ) → (reading : Result (List Group) SyntaxFault) × ReadsAs text reading }
{}
