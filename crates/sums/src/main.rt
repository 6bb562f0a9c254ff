// The program `sums`: writes one sum as a clause text, so that a totaller can be tried alone.
#![tactic(auto)]

use adder_network::AdderNetwork;
use clause_text::WriteFault;
use running_totals::RunningTotals;
use shell::{Fault, ended, read_input, write_output};
use std::alloc::Global;
use std::process::ExitCode;
use sum_text::{Method, OwnedSum, SumTextFault, read_sum, write_sum};
use totallers::TotallerFault;

// Why no sum was written.
type NotWritten<'a> = Fault<SumTextFault<'a>, WriteFault<TotallerFault>>;

// Reads a sum from standard input, and writes its clauses to standard output.
fn main(rt: HostRuntime) -> ExitCode {
    let mut text = String::new(rt.alloc());
    ended(&rt, "sums", work(&rt, &mut text))
}

fn work<'a>(rt: &HostRuntime, text: &'a mut String) -> Result<ExitCode, NotWritten<'a>> {
    read_input(rt, text)?;
    let words: Vec<&'a str> = text.as_str().split_whitespace().collect(rt.alloc())?;
    let sum = read_sum(rt.alloc(), words.as_slice()).map_err(Fault::Text)?;
    // A `match`: `map_err` takes no function whose result names a lifetime, here the text's, that its argument does not.
    let clauses = match encode(rt.alloc(), &sum) {
        Ok(clauses) => clauses,
        Err(fault) => return Err(Fault::Write(fault)),
    };
    write_output(rt, clauses.as_slice())?;
    Ok(ExitCode::SUCCESS)
}

// The clauses of a sum, by the totaller that it names.
fn encode(heap: Global, sum: &OwnedSum) -> Result<Vec<u8>, WriteFault<TotallerFault>> {
    match sum.method {
        Method::Running => write_sum::<RunningTotals>(heap, sum),
        Method::Adder => write_sum::<AdderNetwork>(heap, sum),
    }
}
