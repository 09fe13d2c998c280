//! The words that the program was called with.

ghost use Rattle.std.specs.Prelude.{◌≡◌, ◌↔◌, ◌⊎◌, IfErr};
ghost use Rattle.std_io.specs.IoError.{error_kind};
ghost use Rattle.std_io.specs.declared.io.kind.ErrorKind.TheVariants.{OutOfMemory};

use crate::status::Status;
use std::{env, io};

// The status if the words cannot be read. Words that are not UTF-8 are a usage error.
fn status_of(error: &io::Error) -> Status
    ensures memory { (result ≡ Status.NoMemory) ↔ (error_kind error.now ≡ OutOfMemory) }
    ensures usage { (result ≡ Status.Usage) ↔ ¬ (error_kind error.now ≡ OutOfMemory) }
{
    match error.kind() {
        io::ErrorKind::OutOfMemory => Status::NoMemory,
        _ => Status::Usage,
    }
}

/// The words after the program's name.
pub fn words_of(rt: &HostRuntime) -> Result<Vec<String>, Status>
    ensures refused { IfErr result (λ status. (status ≡ Status.Usage) ⊎ (status ≡ Status.NoMemory)) }
{
    let mut words = Vec::new(rt.alloc());
    for word in env::args(rt).map_err(|error| status_of(&error))?.skip(1) {
        if words.push(word).is_err() {
            return Err(Status::NoMemory);
        }
    }
    Ok(words)
}
