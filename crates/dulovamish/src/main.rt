// The program `dulovamish`: writes a draft text as a clause text for SAT solvers.
#![tactic(auto)]

use desk::{EncodeFault, Reason, TextFault, encode, statement_word};
use shell::{StreamFault, ended, write_output};
use std::alloc::{AllocError, Global};
use std::io::Read;
use std::process::ExitCode;
use std::{env, fs, io};
use thiserror::Error;

const HELP: &str = "dulovamish: writes a draft of a Sudoku puzzle as a clause text for SAT solvers

usage:
  dulovamish encode [FILE]   read a draft text from FILE, or from standard input
                             without FILE or where it is `-`, and write its clauses
                             to standard output in the DIMACS form
  dulovamish help            print this text

A draft text has one statement to a line:
  side N                     the board's side, 4 or 9; this is the first statement
`#` starts a comment, and blank lines are skipped.

What is wrong is said on standard error, and the exit status is then 1.";

// Why the program did not do what it was asked.
#[derive(Debug, Drop, Error)]
enum Fault<'a> {
    #[error("the arguments cannot be read")]
    Arguments,
    #[error("no command; `dulovamish help` lists them")]
    NoCommand,
    #[error("unknown command; `dulovamish help` lists them")]
    UnknownCommand,
    #[error("{name}: {error}")]
    Input {
        name: &'a str,
        error: io::Error,
    },
    #[error(transparent)]
    Output(#[from] StreamFault),
    #[error("not enough memory")]
    Memory,
    // The text has no clauses.
    #[error("{name}: {fault}")]
    Draft {
        name: &'a str,
        fault: EncodeFault,
    },
    // No statement begins with the word.
    #[error("{name}: {fault} `{word}`")]
    Unknown {
        name: &'a str,
        fault: TextFault,
        word: String,
    },
}

fn main(rt: HostRuntime) -> ExitCode {
    let mut words = Vec::new(rt.alloc());
    ended(&rt, "dulovamish", work(&rt, &mut words))
}

fn work<'a>(rt: &HostRuntime, words: &'a mut Vec<String>) -> Result<ExitCode, Fault<'a>> {
    // No `map_err`: its closure's result would name a lifetime that its argument does not, which gets no proof.
    if read_words(rt, words).is_err() {
        return Err(Fault::Arguments);
    }
    run(rt, words.as_slice())
}

// The words behind the program's name.
fn read_words(rt: &HostRuntime, words: &mut Vec<String>) -> io::Result<()> {
    for word in env::args(rt)?.skip(1) {
        words.push(word)?;
    }
    Ok(())
}

fn run<'a>(rt: &HostRuntime, words: &'a [String]) -> Result<ExitCode, Fault<'a>> {
    match words {
        [command] if command.as_str() == "help" => Ok(help(rt)),
        [command] if command.as_str() == "encode" => encode_file(rt, "-"),
        [command, file] if command.as_str() == "encode" => encode_file(rt, file.as_str()),
        [] => Err(Fault::NoCommand),
        _ => Err(Fault::UnknownCommand),
    }
}

// A help text that cannot be printed is told by the exit status alone.
fn help(rt: &HostRuntime) -> ExitCode {
    match rt.println(HELP) {
        Ok(()) => ExitCode::SUCCESS,
        Err(_) => ExitCode::FAILURE,
    }
}

fn encode_file<'a>(rt: &HostRuntime, file: &'a str) -> Result<ExitCode, Fault<'a>> {
    let name = if file == "-" { "standard input" } else { file };
    let text = read_all(rt, file).map_err(|error| Fault::Input { name, error })?;
    let clauses = encode(rt.alloc(), text.as_slice()).map_err(|fault| explained(
        rt.alloc(),
        name,
        text.as_slice(),
        fault,
    ))?;
    write_output(rt, clauses.as_slice())?;
    Ok(ExitCode::SUCCESS)
}

fn read_all(rt: &HostRuntime, file: &str) -> io::Result<Vec<u8>> {
    if file != "-" {
        return fs::read(rt, file);
    }
    let mut text = Vec::new(rt.alloc());
    rt.stdin().read_to_end(&mut text)?;
    Ok(text)
}

// Why a text has no clauses; an unknown statement is told with its word, where there is memory for it.
fn explained<'a>(heap: Global, name: &'a str, text: &[u8], fault: EncodeFault) -> Fault<'a> {
    match fault {
        EncodeFault::Memory => Fault::Memory,
        EncodeFault::Text(unknown) if unknown.reason == Reason::UnknownStatement => {
            match printable(heap, statement_word(text, unknown.line)) {
                Ok(word) => Fault::Unknown {
                    name,
                    fault: unknown,
                    word,
                },
                Err(_) => Fault::Draft { name, fault },
            }
        }
        _ => Fault::Draft { name, fault },
    }
}

// A word as a terminal can show it: `?` stands for each byte that is no printable ASCII character.
fn printable(heap: Global, word: &[u8]) -> Result<String, AllocError> {
    let mut shown = String::new(heap);
    for byte in word {
        let known = *byte > b' ' && *byte < 127;
        shown.push(if known { char::from(*byte) } else { '?' })?;
    }
    Ok(shown)
}
