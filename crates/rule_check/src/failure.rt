// What went wrong.
use std::error::Error;
use std::io::ErrorKind;
use std::{fmt, io};

// The input could not be read, or the answer could not be written.
#[derive(Debug, Drop)]
pub enum Failure {
    Input(io::Error),
    Output(io::Error),
}

// A stream and its error. A step that was interrupted at every try is told by that kind: the system's text would be of one try.
fn told<W: fmt::Write>(f: &mut fmt::Formatter<W>, stream: &str, error: &io::Error) -> fmt::Result {
    if error.kind() == ErrorKind::Interrupted {
        return write!(f, "{stream}: {}", ErrorKind::Interrupted);
    }
    write!(f, "{stream}: {error}")
}

impl fmt::Display for Failure {
    fn fmt<W: fmt::Write>(&self, f: &mut fmt::Formatter<W>) -> fmt::Result {
        match self {
            Failure::Input(error) => told(f, "standard input", error),
            Failure::Output(error) => told(f, "standard output", error),
        }
    }
}

impl Error for Failure {}
