use crate::streams::StreamFault;
use std::alloc::AllocError;
use std::fmt::Display;
use thiserror::Error;

// Why a program that reads a text and writes its clauses did not: `T` says why the text is wrong, and `W` why nothing was
// written of it.
#[derive(Debug, Drop, Error)]
#[error_bound(T: Display, W: Display)]
pub enum Fault<T, W> {
    #[error(transparent)]
    Stream(#[from] StreamFault),
    #[error("not enough memory")]
    Memory(#[from(alloc)] AllocError),
    // The text is wrong.
    #[error(transparent)]
    Text(T),
    // What it says is refused.
    #[error(transparent)]
    Write(W),
}
