// Lines that tell a call and what it answered. They go by a writer, part by part, and not by `println!`, which keeps a line's parts together: what
// comes through where standard output fails in the middle of a line, and how often a signal may interrupt it, is then a matter of each part.
use answers::Answer;
use std::io::{self, Write};
use stock::{Sums, stock};

// What was called, and its answer, which is made of what the call came to. What was called may be any bytes: `&str`, by which this would be one
// `writeln!`, would ask more of a caller.
pub fn say<R: Print, A: Into<Answer>>(rt: &R, what: &[u8], answer: A) -> io::Result<()> {
    let answer: Answer = answer.into();
    rt.write_all(what)?;
    writeln!(io::writer(rt), " {answer}")
}

// The stock of a board.
pub fn say_stock<R: Print>(rt: &R, file: &[u8], board: &[u64]) -> io::Result<()> {
    let sums = Sums::from(stock(file, board));
    rt.write_all(b"stock")?;
    writeln!(io::writer(rt), " {sums}")
}
