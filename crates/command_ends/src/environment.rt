// What the system tells a program as it begins, and what the program tells it as it ends.
ghost use Rattle.std.specs.Prelude.{◌≡◌, IfOk, OnErr};
ghost use Rattle.std.specs.Process.{exit_status};

use std::alloc::{Alloc, Global};
use std::process::ExitCode;
use std::rt::Env;
use std::{env, io};

// The exit status if memory runs out.
const OUT_OF_MEMORY: u8 = 9;

// The variable of the environment that names a descriptor, whose end is the user's word to end.
const END: &str = "MM_END_FD";

/// Returns the words after the program's name, or no words if one of them isn't UTF-8: neither have a job. An error
/// means out of memory.
pub fn read_words<R: Env + Alloc<A = Global>>(rt: &R) -> io::Result<Vec<String>> {
    match env::args(rt) {
        Ok(words) => Ok(words.skip(1).collect(rt.alloc())?),
        Err(error) if error.kind() == io::ErrorKind::InvalidData => Ok(Vec::new(rt.alloc())),
        Err(error) => Err(error),
    }
}

/// Returns the descriptor whose end is the user's word to end, if the environment names one.
pub fn read_end<R: Env + Alloc<A = Global>>(rt: &R) -> Option<i32> {
    let text = env::var(rt, END).ok()?;
    let descriptor = text.parse::<i32>().ok()?;
    if descriptor < 0 {
        return None;
    }
    Some(descriptor)
}

/// Returns the exit code of a program: the status that its top call returned, or 9 if memory ran out before it.
pub fn exit_code(status: io::Result<u8>) -> ExitCode
    ensures status { IfOk status (λ status. exit_status result ≡ status) }
    ensures wanted { OnErr status (exit_status result ≡ 9) }
{
    match status {
        Ok(status) => ExitCode::from(status),
        Err(_) => ExitCode::from(OUT_OF_MEMORY),
    }
}
