// What the lines of a draft text say.
use thiserror::Error;

// What is wrong with a line.
#[derive(Clone, Copy, PartialEq, Eq, Debug, Error)]
pub enum Reason {
    // No statement begins with this word.
    #[error("unknown statement")]
    UnknownStatement,
    // The text ends, and no line has said the side.
    #[error("no `side` statement; a draft begins with `side 4` or `side 9`")]
    NoSide,
    // The side was said before.
    #[error("a second `side` statement")]
    SecondSide,
    // Not one word stands behind `side`.
    #[error("`side` takes one number, 4 or 9")]
    SideWords,
    // That word is not the side of a board.
    #[error("the side is not 4 or 9")]
    SideNumber,
}

// What is wrong with a text, by the number of the line, from 1 on.
#[derive(Clone, Copy, PartialEq, Eq, Debug, Error)]
#[error("line {line}: {reason}")]
pub struct TextFault {
    pub line: usize,
    pub reason: Reason,
}

// What a line may say.
#[derive(Clone, Copy, PartialEq, Eq, Debug)]
pub enum Statement {
    // The side of the board.
    Side(usize),
}

// The line that says the side, and what it says.
#[derive(Clone, Copy, PartialEq, Eq, Debug)]
pub struct SideLine {
    pub line: usize,
    pub side: usize,
}
