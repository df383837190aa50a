//! What the words on the command line ask for.
ghost use Rattle.std.specs.Prelude.{◌≡◌};
ghost use Rattle.uhura.specs.Run.{measured, seeded, task_named, task_of};

use uhura_text::{NotNumber, number};

/// What the program is asked to do.
#[derive(Clone, Copy, Debug, PartialEq, Eq)]
pub(crate) enum Task {
    /// To answer the lines of a script.
    Script,
    /// To check a document.
    Check,
    /// To ask the plan that this number gives, from 1 to 2,147,483,646.
    Measure { number: u32 },
}

/// The task that these words ask for, and none where they are none of those listed.
pub(crate) fn read_task(words: &Vec<String>) -> Option<Task>
    ensures { result ≡ task_of words.now.items }
{
    match words.as_slice() {
        [] => Some(Task::Script),
        [word] => task_named(word.as_str()),
        [word, number] if word.as_str() == "measure" => measured(number.as_str().as_bytes()),
        _ => None,
    }
}

/// The task that one word asks for.
fn task_named(word: &str) -> Option<Task>
    ensures { result ≡ task_named word.now }
{
    if word == "run" {
        return Some(Task::Script);
    }
    if word == "check" {
        return Some(Task::Check);
    }
    None
}

/// The task to ask the plan of the number that a word writes, where there is such a plan.
fn measured(word: &[u8]) -> Option<Task>
    ensures { result ≡ measured word.now }
{
    match number(word) {
        Ok(number) => seeded(number),
        Err(NotNumber) => None,
    }
}

/// The task to ask the plan of a number, where there is one.
fn seeded(number: i128) -> Option<Task>
    ensures { result ≡ seeded number }
{
    if 1 <= number && number <= 2_147_483_646 {
        Some(Task::Measure {
            number: number as u32,
        })
    } else {
        None
    }
}
