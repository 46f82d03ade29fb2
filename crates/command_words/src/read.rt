ghost use Rattle.std.specs.Prelude.{MatchResult, map, string_bytes};
ghost use Rattle.command_words.specs.JobOf.{IsFirstRefusal, IsJob, IsUsageFault};
ghost use Rattle.command_words.specs.Draft.{IsDraft};

use crate::draft::Draft;
use crate::job::{Command, Job, UsageFault};
use crate::table::command_in;

/// The job of the words of a command line. The first word is the command, and each other one a key, `=` and a value.
/// Faults come in this order: no command, no known command, the first word that is refused (its key, then its having
/// stood, then its value), and the first missing key.
pub fn read_words(words: &[String]) -> Result<Job, UsageFault>
    ensures { MatchResult result (IsJob (map string_bytes words.now)) (IsUsageFault (map string_bytes words.now)) }
{
    let Some((first, rest)) = words.split_first() else {
        return Err(UsageFault::NoCommand);
    };
    let Some(command) = command_in(first.as_bytes()) else {
        return Err(UsageFault::UnknownCommand);
    };
    let draft = draft_of(command, rest)?;
    match draft.missing(command) {
        Some(key) => Err(UsageFault::MissingKey { key }),
        None => Ok(draft.job(command)),
    }
}

/// What the words after the command say.
fn draft_of(command: Command, words: &[String]) -> Result<Draft, UsageFault>
    ensures { MatchResult result (λ draft. IsDraft command (map string_bytes words.now) draft.values)
        (IsFirstRefusal command (map string_bytes words.now)) }
{
    let mut draft = Draft::new();
    let mut number = 2;
    for word in words {
        draft.take(command, number, word.as_bytes())?;
        number += 1;
    }
    Ok(draft)
}
