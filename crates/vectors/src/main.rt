// Reads encodings in hex, one to a line, and says of each whether it is one item of Mercurial's CBOR subset, and which.
// The input is read in pieces, and of a line no more than one item's bytes is kept.
#![tactic(auto)]

mod answer;
mod line;

use answer::ROOM;
use line::{Part, Reading};
use std::io;
use std::io::{Print, Read};
use text::Line;

// As many bytes are read at a time.
const PIECE: usize = 4096;

// A run ends with status 0, also one whose output fails.
fn main(rt: HostRuntime) {
    let _ = take_input(&mut rt.stdin(), &rt);
}

// Takes the input to its end, where the last line ends too. A read that failed is said in place of the line. What is said of each line
// stands in one room. A proved loop has to end, and nothing says that the input does: no run uses up so many turns.
fn take_input(input: &mut impl Read, output: &impl Print) -> io::Result<()> {
    let mut piece = [0u8; PIECE];
    let mut reading = Reading::first();
    let mut line = Line::new();
    for _ in 0..u64::MAX {
        let Ok(n) = input.read(&mut piece) else {
            answer::fault(reading.number, b"the input cannot be read", &mut line);
            return output.write_all(line.as_slice());
        };
        if n == 0 {
            return finish(&reading, &mut line, output);
        }
        take_all(&mut reading, &piece[..n], &mut line, output)?;
    }
    Ok(())
}

// Takes bytes in order, until the output fails.
fn take_all(
    reading: &mut Reading,
    bytes: &[u8],
    line: &mut Line<ROOM>,
    output: &impl Print,
) -> io::Result<()> {
    for b in bytes {
        if *b == b'\n' {
            finish(reading, line, output)?;
            reading.next();
        } else if reading.part == Part::Digits {
            reading.take_digit(*b);
        }
    }
    Ok(())
}

// Writes what there is to say of the line that ends here.
fn finish(reading: &Reading, line: &mut Line<ROOM>, output: &impl Print) -> io::Result<()> {
    answer::said(reading, line);
    output.write_all(line.as_slice())
}
