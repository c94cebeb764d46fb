//! The words after the program's name.
ghost use Rattle.std.specs.Prelude.{◌≡◌, ◌⊎◌, ◌↔◌, IfSome, IsNone, map};
ghost use Rattle.std.specs.String.{string_bytes};
ghost use Rattle.cello_top.specs.Words.{IsCommand, IsSomeDemo, IsSomeResume, ReadsSource};
ghost use Rattle.cello_top.specs.Lemmas.CommandSteps.{IsOf, IsOfCommand};

use crate::word_forms::{cycle_of, file_name, is_word, seed_of, size_of};
use cello_num::Name;

/// What the program can be asked to do with the text of the source.
#[derive(Debug, Clone, Copy, PartialEq, Eq)]
pub enum TextCommand {
    /// The run on one thread.
    Solo,
    /// The canonical text of parameters.
    Check,
}

/// What the program can be asked to do.
#[derive(Debug, Clone, Copy, PartialEq, Eq)]
pub enum Command {
    /// What is done with the text of the source.
    Text(TextCommand),
    /// The run that goes on from the checkpoint in the file of this name, up to this cycle.
    Resume { name: Name, until: u32 },
    /// The summary of the demonstration of this seed and this size.
    Demo { seed: u32, size: u32 },
}

/// The command of these words, if they are one.
pub fn command_of(words: &[String]) -> Option<Command>
    ensures found { IfSome result (λ command. IsOfCommand command (map string_bytes words.now)) }
    ensures none { IsNone result ↔ (IsCommand (map string_bytes words.now) → ⊥) }
{
    match text_command_of(words) {
        Some(command) => Some(Command::Text(command)),
        None => other_command_of(words),
    }
}

/// The command of these words that doesn't read the source, if they are one.
fn other_command_of(words: &[String]) -> Option<Command>
    ensures found { IfSome result (λ command. IsOfCommand command (map string_bytes words.now)) }
    ensures none { IsNone result ↔ (IsSomeResume (map string_bytes words.now) ⊎ IsSomeDemo (map string_bytes words.now) → ⊥) }
{
    match resume_of(words) {
        Some(command) => Some(command),
        None => demo_of(words),
    }
}

/// The command of these words that reads the source, if they are one.
pub fn text_command_of(words: &[String]) -> Option<TextCommand>
    ensures found { IfSome result (λ command. IsOf command (map string_bytes words.now)) }
    ensures none { IsNone result ↔ (ReadsSource (map string_bytes words.now) → ⊥) }
{
    match words {
        [word] if word.as_str() == "solo" => Some(TextCommand::Solo),
        [word] if word.as_str() == "check" => Some(TextCommand::Check),
        _ => None,
    }
}

/// The command `resume` of these words, if they are that.
fn resume_of(words: &[String]) -> Option<Command>
    ensures found { IfSome result (λ command. IsOfCommand command (map string_bytes words.now)) }
    ensures none { IsNone result ↔ (IsSomeResume (map string_bytes words.now) → ⊥) }
{
    if words.len() != 4 {
        return None;
    }
    if !is_word(&words[0], b"resume") {
        return None;
    }
    if !is_word(&words[2], b"--until") {
        return None;
    }
    let name = file_name(&words[1])?;
    let until = cycle_of(&words[3])?;
    Some(Command::Resume { name, until })
}

/// The command `demo` of these words, if they are that.
fn demo_of(words: &[String]) -> Option<Command>
    ensures found { IfSome result (λ command. IsOfCommand command (map string_bytes words.now)) }
    ensures none { IsNone result ↔ (IsSomeDemo (map string_bytes words.now) → ⊥) }
{
    if words.len() != 3 {
        return None;
    }
    if !is_word(&words[0], b"demo") {
        return None;
    }
    let seed = seed_of(&words[1])?;
    let size = size_of(&words[2])?;
    Some(Command::Demo { seed, size })
}
