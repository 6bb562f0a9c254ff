// The standard streams. No contract can say what is read or written there, only which stream failed.
ghost use Rattle.std.specs.Prelude.{◌≡◌, MatchResult};
ghost use Rattle.shell.specs.declared.streams.Stream.TheVariants.{Input, Output};

use std::io::{Read, Write};
use std::{fmt, io};
use thiserror::Error;

// Where a program reads and writes.
#[derive(Clone, Copy, PartialEq, Eq, Debug)]
pub enum Stream {
    Input,
    Output,
}

impl fmt::Display for Stream {
    fn fmt<W: fmt::Write>(&self, f: &mut fmt::Formatter<W>) -> fmt::Result {
        match self {
            Stream::Input => write!(f, "standard input"),
            Stream::Output => write!(f, "standard output"),
        }
    }
}

// What a stream failed with.
#[derive(Debug, Drop, Error)]
#[error("{stream}: {error}")]
pub struct StreamFault {
    pub stream: Stream,
    pub error: io::Error,
}

// Reads standard input to its end, as text.
pub fn read_input(rt: &HostRuntime, text: &mut String) -> Result<(), StreamFault>
    ensures { MatchResult result (λ _. Unit {0}) (λ fault. fault.stream ≡ Input) }
{
    rt.stdin()
        .read_to_string(text)
        .map_err(|error| StreamFault {
            stream: Stream::Input,
            error,
        })?;
    Ok(())
}

// Writes all of the bytes to standard output.
pub fn write_output(rt: &HostRuntime, bytes: &[u8]) -> Result<(), StreamFault>
    ensures { MatchResult result (λ _. Unit {0}) (λ fault. fault.stream ≡ Output) }
{
    rt.stdout().write_all(bytes).map_err(|error| StreamFault {
        stream: Stream::Output,
        error,
    })
}
