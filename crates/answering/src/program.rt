ghost use Rattle.std.specs.Prelude.{◌≡◌, ℕ, List, take, IfOk, IfSome, OnOk};
ghost use Rattle.std.specs.Io.KnownBytes.{Appends};
ghost use Rattle.answering.specs.Answers.{AnsweredInto};

use crate::equipment::Equipment;
use crate::reckoner::Reckoner;
use std::alloc::Global;
use std::io::{self, Read, Write};
use text::MOST_BYTES;

// Of an input one byte more is read than the longest run file has, by which a longer one is told.
const MOST_READ: usize = MOST_BYTES + 1;

/// A whole program that answers a run file: standard input, `Reckoner::answer`, standard output.
pub fn run<E: Equipment>(rt: &HostRuntime, equipment: &E) -> io::Result<()> {
    answer_input(rt.alloc(), rt.stdin(), &mut io::writer(rt), equipment)
}

/// Answers the run file that is the whole of an input, however long that is, and writes the lines to an output. (Where an input or
/// an output does not tell its bytes, as those of a process, nothing is said of them, and nothing where the call returns an error,
/// which is for memory, reading and writing: `Reckoner::answer` has none.)
pub fn answer_input<R: Read + Drop, W: Write, E: Equipment>(
    heap: Global,
    input: R,
    output: &mut W,
    equipment: &E,
) -> io::Result<()>
    ensures { OnOk result (IfSome (R.remaining input) (AnsweredInto (E.stock equipment.now) (W.contents output.old) (W.contents output.new))) }
{
    let text = read_text(heap, input)?;
    answer_text(&text, output, equipment)
}

// The bytes of an input, as far as a run file can go and one more. An error comes of memory or of reading.
fn read_text<R: Read + Drop>(heap: Global, input: R) -> io::Result<Vec<u8>>
    ensures { IfOk result (λ v. IfSome (R.remaining input) (λ text. v.items ≡ take 65537 text)) }
{
    let mut text = Vec::with_capacity(heap, MOST_READ)?;
    input.take(MOST_READ as u64).read_to_end(&mut text)?;
    Ok(text)
}

// Answers a text, which cannot fail, and writes the lines to an output. An error comes of writing.
fn answer_text<W: Write, E: Equipment>(text: &[u8], output: &mut W, equipment: &E) -> io::Result<()>
    ensures { OnOk result (AnsweredInto (E.stock equipment.now) (W.contents output.old) (W.contents output.new) text.now) }
{
    let mut reckoner = Reckoner::new();
    reckoner.answer(text, equipment);
    output.write_all(reckoner.output())
}
