// Reads lines of seven cards and writes, for each line, the class and the five ranks of the best hand, or a dash.
#![tactic(auto)]

use anyhow::anyhow;
use hand_line::line::Line;
use std::env;
use std::io::{BufRead, BufReader, BufWriter, Write};

fn main(rt: HostRuntime) -> anyhow::Result<()> {
    run(&rt)
}

fn run(rt: &HostRuntime) -> anyhow::Result<()> {
    if env::args(rt)?.count() > 1 {
        return Err(anyhow!(
            "hand takes no arguments; it reads lines of seven cards, such as AhKhQhJhTh2c2d, from its input"
        ));
    }
    answer_input(rt)
}

fn answer_input(rt: &HostRuntime) -> anyhow::Result<()> {
    let mut input = BufReader::new(rt.alloc(), rt.stdin())?;
    let mut output = BufWriter::new(rt.alloc(), rt.stdout())?;
    let mut line = Line::new();
    // Nothing says that an input ends, so the reads are counted.
    for _ in 0..u64::MAX {
        let bytes = input.fill_buf()?;
        let count = bytes.len();
        if count == 0 {
            break;
        }
        for byte in bytes {
            if let Some(answer) = line.feed(*byte) {
                writeln!(output, "{answer}")?;
            }
        }
        input.consume(count);
        // Whoever types sees the answers to what was typed.
        output.flush()?;
    }
    if let Some(answer) = line.end() {
        writeln!(output, "{answer}")?;
    }
    output.flush()?;
    Ok(())
}
