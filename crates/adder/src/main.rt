// The program `adder`: writes, by an adder network, that one of two items is true and not both.
#![tactic(auto)]

use adder_network::AdderNetwork;
use clause_text::WriteFault;
use shell::{StreamFault, ended, write_output};
use std::alloc::Global;
use std::process::ExitCode;
use sum_text::{Method, OwnedSum, write_sum};
use thiserror::Error;
use totallers::TotallerFault;

// Why the sum was not written.
#[derive(Debug, Drop, Error)]
enum Fault {
    #[error("not enough memory")]
    Memory,
    #[error(transparent)]
    Stream(#[from] StreamFault),
}

fn main(rt: HostRuntime) -> ExitCode {
    ended(&rt, "adder", work(&rt))
}

fn work(rt: &HostRuntime) -> Result<ExitCode, Fault> {
    // No totaller refuses this sum, so that memory alone can be wanting.
    let clauses = one_of_two(rt.alloc()).map_err(|_| Fault::Memory)?;
    write_output(rt, clauses.as_slice())?;
    Ok(ExitCode::SUCCESS)
}

// The items 1 and 2, each of weight 1, add to 1; fresh numbers begin at 3.
fn one_of_two(heap: Global) -> Result<Vec<u8>, WriteFault<TotallerFault>> {
    let sum = OwnedSum {
        method: Method::Adder,
        target: 1,
        first: 3,
        variables: vec![in heap; 1, 2]?,
        weights: vec![in heap; 1, 1]?,
    };
    write_sum::<AdderNetwork>(heap, &sum)
}
