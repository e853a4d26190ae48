// Run files in one input, each behind a line with its length and its name: the name of each is printed with the lines that answer it.
#![tactic(auto)]

use answering::Reckoner;
use equipment::NineTenths;
use std::io::{self, Read, Write};
use text::leading_number;

fn main(rt: HostRuntime) -> io::Result<()> {
    let mut input = Vec::new(rt.alloc());
    rt.stdin().read_to_end(&mut input)?;
    let mut reckoner = Reckoner::new();
    let mut rest = input.as_slice();
    for _ in 0..input.len() {
        let Some((name, text, after)) = next_case(rest) else {
            return Ok(());
        };
        io::writer(&rt).write_all(name)?;
        reckoner.answer(text, &NineTenths);
        show(&rt, reckoner.output())?;
        rest = after;
    }
    Ok(())
}

// The name and the text of the next run file, and the input behind it; none at the end.
fn next_case(input: &[u8]) -> Option<(&[u8], &[u8], &[u8])> {
    let (length, rest) = leading_number(1, input).ok()?;
    let end = rest.iter().position(|byte| *byte == b'\n')?;
    let name = rest.get(..end)?;
    let rest = rest.get(end..)?.get(1..)?;
    let text = rest.get(..length as usize)?;
    let after = rest.get(length as usize..)?.get(1..)?;
    Some((name, text, after))
}

// Shows the lines of an answer, or that there are none.
fn show(rt: &HostRuntime, output: &[u8]) -> io::Result<()> {
    if output.is_empty() {
        return println!(rt; ": nothing");
    }
    print!(rt; ": ")?;
    io::writer(rt).write_all(output)
}
