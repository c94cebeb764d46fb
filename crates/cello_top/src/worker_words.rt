//! The words after the program's name, with workers or without.
ghost use Rattle.std.specs.Prelude.{◌≡◌, ◌<◌, ◌≤◌, ◌+◌, IfSome, IsNone, false, length, map, true};
ghost use Rattle.std.specs.String.{string_bytes};
ghost use Rattle.cello_top.specs.Words.{IsCommand};
ghost use Rattle.cello_top.specs.WorkerWords.{asks_restart, asks_run, is_workers, most_workers, resume_words};
ghost use Rattle.cello_top.specs.Lemmas.Asking.{IsAsked};
ghost use Rattle.cello_top.specs.Lemmas.CommandSteps.{IsOfCommand};

use crate::word_forms::{cycle_of, file_name, is_decimal, is_word};
use crate::words::{Command, TextCommand, command_of};

/// How many workers there may be.
const MOST_WORKERS: u32 = 16;

/// What words ask for.
#[derive(Debug, Clone, Copy, PartialEq, Eq)]
pub enum Asked {
    /// A command, by so many workers.
    Workers { command: Command, workers: u32 },
    /// A command on one thread.
    Plain { command: Command },
    /// No command.
    Usage,
}

/// What these words ask for.
pub fn asked_of(words: &[String]) -> Asked
    ensures asked { IsAsked result (map string_bytes words.now) }
{
    if let Some(workers) = run_of(words) {
        let command = Command::Text(TextCommand::Solo);
        return Asked::Workers { command, workers };
    }
    if let Some(workers) = restart_of(words, 2, 4) {
        return match resume_of(words, 4) {
            Some(command) => Asked::Workers { command, workers },
            None => Asked::Usage,
        };
    }
    if let Some(workers) = restart_of(words, 4, 2) {
        return match resume_of(words, 2) {
            Some(command) => Asked::Workers { command, workers },
            None => Asked::Usage,
        };
    }
    match command_of(words) {
        Some(command) => Asked::Plain { command },
        None => Asked::Usage,
    }
}

/// The number of workers, where these words are of `run`.
fn run_of(words: &[String]) -> Option<u32>
    ensures asks { IfSome result (λ _. asks_run (map string_bytes words.now) ≡ true) }
    ensures some { IfSome result (λ workers. 1 ≤ workers) }
    ensures within { IfSome result (λ workers. workers ≤ most_workers) }
    ensures none { IsNone result → asks_run (map string_bytes words.now) ≡ false }
{
    if words.len() != 3 {
        return None;
    }
    if !is_word(&words[0], b"run") {
        return None;
    }
    if !is_word(&words[1], b"--workers") {
        return None;
    }
    workers_of(&words[2])
}

/// The number of workers, where these words are of `restart`, with its options at these positions.
fn restart_of(words: &[String], workers: usize, until: usize) -> Option<u32>
    requires workers { workers < 5 }
    requires until { until < 5 }
    ensures asks { IfSome result (λ _. asks_restart workers until (map string_bytes words.now) ≡ true) }
    ensures some { IfSome result (λ workers. 1 ≤ workers) }
    ensures within { IfSome result (λ workers. workers ≤ most_workers) }
    ensures none { IsNone result → asks_restart workers until (map string_bytes words.now) ≡ false }
    ensures six { IfSome result (λ _. length words.now ≡ 6) }
{
    if words.len() != 6 {
        return None;
    }
    if !is_word(&words[0], b"restart") {
        return None;
    }
    if !is_word(&words[workers], b"--workers") {
        return None;
    }
    if !is_word(&words[until], b"--until") {
        return None;
    }
    workers_of(&words[workers + 1])
}

/// The command `resume` that words of `restart` ask for, if its name and its cycle are fit for it.
fn resume_of(words: &[String], until: usize) -> Option<Command>
    requires six { length words.now ≡ 6 }
    requires until { until < 5 }
    ensures found { IfSome result (λ command. IsOfCommand command (resume_words until (map string_bytes words.now))) }
    ensures none { IsNone result → IsCommand (resume_words until (map string_bytes words.now)) → ⊥ }
{
    let name = file_name(&words[1])?;
    let until = cycle_of(&words[until + 1])?;
    Some(Command::Resume { name, until })
}

/// The number of workers, if the word is its decimal spelling.
fn workers_of(word: &String) -> Option<u32>
    ensures asks { IfSome result (λ _. is_workers (string_bytes word.now) ≡ true) }
    ensures some { IfSome result (λ workers. 1 ≤ workers) }
    ensures within { IfSome result (λ workers. workers ≤ most_workers) }
    ensures none { IsNone result → is_workers (string_bytes word.now) ≡ false }
{
    let text = word.as_str();
    let Ok(workers) = text.parse::<u32>() else {
        return None;
    };
    if workers < 1 || workers > MOST_WORKERS {
        return None;
    }
    if !is_decimal(workers, text.as_bytes()) {
        return None;
    }
    Some(workers)
}
