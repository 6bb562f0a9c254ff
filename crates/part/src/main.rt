// The program `part`: writes an empty board with one part as a clause text, so that a kind can be tried alone.
#![tactic(auto)]

use adder_network::AdderNetwork;
use clause_text::WriteFault;
use givens::Givens;
use part_text::{KindName, Part, PartFault, PartTextFault, read_part, write_part};
use running_totals::RunningTotals;
use shell::{Fault, ended, read_input, write_output};
use std::alloc::Global;
use std::process::ExitCode;
use sum_kinds::{Arrow, Cage};
use sum_text::Method;
use thermometer::Thermometer;
use totallers::Totaller;

// Why no part was written.
type NotWritten<'a> = Fault<PartTextFault<'a>, WriteFault<PartFault>>;

// Reads a part from standard input, and writes its clauses to standard output.
fn main(rt: HostRuntime) -> ExitCode {
    let mut text = String::new(rt.alloc());
    ended(&rt, "part", work(&rt, &mut text))
}

fn work<'a>(rt: &HostRuntime, text: &'a mut String) -> Result<ExitCode, NotWritten<'a>> {
    read_input(rt, text)?;
    let words: Vec<&'a str> = text.as_str().split_whitespace().collect(rt.alloc())?;
    let part = read_part(rt.alloc(), words.as_slice()).map_err(Fault::Text)?;
    // A `match`: `map_err` takes no function whose result names a lifetime, here the text's, that its argument does not.
    let clauses = match encode(rt.alloc(), &part) {
        Ok(clauses) => clauses,
        Err(fault) => return Err(Fault::Write(fault)),
    };
    write_output(rt, clauses.as_slice())?;
    Ok(ExitCode::SUCCESS)
}

// The clauses of a board with the part, by the totaller and the kind that it names.
fn encode(heap: Global, part: &Part) -> Result<Vec<u8>, WriteFault<PartFault>> {
    match part.method {
        Method::Running => encode_by::<RunningTotals>(heap, part),
        Method::Adder => encode_by::<AdderNetwork>(heap, part),
    }
}

fn encode_by<T: Totaller>(heap: Global, part: &Part) -> Result<Vec<u8>, WriteFault<PartFault>> {
    match part.kind {
        KindName::Givens => write_part::<T, Givens>(heap, part),
        KindName::Thermometer => write_part::<T, Thermometer>(heap, part),
        KindName::Cage => write_part::<T, Cage>(heap, part),
        KindName::Arrow => write_part::<T, Arrow>(heap, part),
    }
}
