// A line for each case: its name, and what the call answered.
use meaning::{Judgement, Opening, Refusal};
use rule::Rule;
use std::{fmt, io};

// What a call gave that was not refused.
#[derive(Clone, Copy, Debug, PartialEq, Eq)]
pub enum Given {
    Fine(Rule),
    Bytes(usize),
    Ready(Opening),
    Taken(u32),
    Judged { judgement: Judgement, looks: u32 },
}

impl fmt::Display for Given {
    fn fmt<W: fmt::Write>(&self, f: &mut fmt::Formatter<W>) -> fmt::Result {
        match *self {
            Given::Fine(rule) => write!(f, "fine {} {}", rule.states, rule.letters),
            Given::Bytes(count) => write!(f, "bytes {count}"),
            Given::Ready(opening) => {
                write!(f, "state {} still {}", opening.reading.state, opening.still)
            }
            Given::Taken(events) => write!(f, "taken {events}"),
            Given::Judged { judgement, looks } => {
                write!(f, "{} {} {looks}", judgement.verdict, judgement.state)
            }
        }
    }
}

// What a call answered: what it gave, or the number and the place of its refusal.
#[derive(Clone, Copy, Debug, PartialEq, Eq)]
struct Answer(Result<Given, Refusal>);

impl fmt::Display for Answer {
    fn fmt<W: fmt::Write>(&self, f: &mut fmt::Formatter<W>) -> fmt::Result {
        match self.0 {
            Ok(given) => write!(f, "{given}"),
            Err(refusal) => write!(f, "{refusal}"),
        }
    }
}

pub fn line(rt: &impl Print, name: &str, answer: Result<Given, Refusal>) -> io::Result<()> {
    println!(rt; "{name} {}", Answer(answer))
}

pub fn checked(rt: &impl Print, name: &str, checked: Result<Rule, Refusal>) -> io::Result<()> {
    line(rt, name, checked.map(Given::Fine))
}

pub fn written(rt: &impl Print, name: &str, written: Result<usize, Refusal>) -> io::Result<()> {
    line(rt, name, written.map(Given::Bytes))
}

// What opening answered, and the words of the book after it.
pub fn opened(
    rt: &impl Print,
    name: &str,
    opened: Result<Opening, Refusal>,
    book: [u64; 4],
) -> io::Result<()> {
    let [first, second, third, fourth] = book;
    print!(rt; "{name} {}", Answer(opened.map(Given::Ready)))?;
    println!(rt; " book {first} {second} {third} {fourth}")
}

// The end of a reading, after so many looks.
pub fn end(
    rt: &impl Print,
    name: &str,
    end: Result<Judgement, Refusal>,
    looks: u32,
) -> io::Result<()> {
    line(
        rt,
        name,
        end.map(|judgement| Given::Judged { judgement, looks }),
    )
}
