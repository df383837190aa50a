//! The words of the command line.
ghost use Rattle.std.specs.Prelude.{◌≡◌, ◌⊎◌, IfErr};
ghost use Rattle.uhura.specs.declared.status.Status.TheVariants.{Usage, NoMemory};

use crate::Status;
use std::alloc::AllocGlobal;
use std::env::{self, Env};
use std::io;

/// The words behind the program's name, or the status of a run that can't have them: `Usage` where one isn't UTF-8,
/// `NoMemory` where there is no memory for them.
pub(crate) fn arguments<R: Env + AllocGlobal>(rt: &R) -> Result<Vec<String>, Status>
    ensures { IfErr result (λ status. (status ≡ Usage) ⊎ (status ≡ NoMemory)) }
{
    let mut words = match env::args(rt) {
        Ok(words) => words,
        Err(error) => return Err(status_of(error.kind())),
    };
    let _program = words.next();
    match words.collect(rt.alloc()) {
        Ok(words) => Ok(words),
        Err(_) => Err(Status::NoMemory),
    }
}

/// The status where the words could not be had.
fn status_of(kind: io::ErrorKind) -> Status
    ensures { (result ≡ Usage) ⊎ (result ≡ NoMemory) }
{
    match kind {
        io::ErrorKind::OutOfMemory => Status::NoMemory,
        _ => Status::Usage,
    }
}
