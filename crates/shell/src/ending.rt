// How a program ends.
ghost use Rattle.std.specs.Prelude.{◌≡◌, MatchResult};
ghost use Rattle.std.specs.Process.{exit_status};

use std::fmt::Display;
use std::process::ExitCode;

// The exit status of a program's answer. What is wrong is said on standard error, behind the program's name.
pub fn ended<E: Display + Drop>(
    rt: &HostRuntime,
    program: &str,
    answer: Result<ExitCode, E>,
) -> ExitCode
    ensures { MatchResult answer (λ code. result ≡ code) (λ _. exit_status result ≡ 1) }
{
    match answer {
        Ok(code) => code,
        Err(fault) => {
            let _ = eprintln!(rt; "{program}: {fault}");
            ExitCode::FAILURE
        }
    }
}
