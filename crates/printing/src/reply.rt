ghost use Rattle.std.specs.Prelude.{◌+◌, ◌≤◌, ◌++◌, length, codes, decimal, IfOk};
ghost use Rattle.history.specs.Replies.{reply_told};
ghost use Rattle.rules.specs.Refusals.{number_of, stops};
ghost use Rattle.rules.specs.Printed.{◌then◌};
ghost use Rattle.printing.specs.Lines.{Printed, outcome, reply_line};
ghost use Rattle.printing.specs.Puts.{Puts};

use crate::put::{ROOM, put_bytes, put_figure, put_number};
use history::Reply;
use rules::Refusal;

/// Prints the reply to a question as a line, and answers how long the line is: the number of the question, then `OK` and the figures
/// of the answer, or `NO` and the number of the refusal. A buffer of fewer than 64 bytes is refused and left as it was; in any other
/// the bytes past the line are left.
#[tactic(auto, unfolding(crate::specs::Puts::Puts))]
pub fn print_reply(out: &mut [u8], question: u32, reply: Reply) -> Result<usize, Refusal>
    ensures printed { Printed (reply_line question (reply_told reply)) out.old result out.new }
    ensures short { IfOk result (λ n. n ≤ 64) }
{
    if out.len() < ROOM {
        return Err(Refusal::ShortBuffer);
    }
    Ok(put_line(out, question, reply))
}

// Puts the line at the head of a buffer.
#[tactic(auto, using(crate::proofs::Puts::joined))]
fn put_line(out: &mut [u8], question: u32, reply: Reply) -> usize
    requires { 64 ≤ length out.old }
    ensures put { Puts (reply_line question (reply_told reply)) 0 out.old result out.new }
    ensures short { result ≤ 64 }
{
    let at = put_reply(out, question, reply);
    put_bytes(out, at, b"\n")
}

// Puts all of the line but its end.
#[tactic(auto, using(crate::proofs::Puts::joined))]
fn put_reply(out: &mut [u8], question: u32, reply: Reply) -> usize
    requires { 46 ≤ length out.old }
    ensures put { Puts (decimal question then outcome (reply_told reply)) 0 out.old result out.new }
    ensures short { result ≤ 46 }
{
    let at = put_number(out, 0, question);
    put_outcome(out, at, reply)
}

// Puts what stands behind the number of a question.
fn put_outcome(out: &mut [u8], at: usize, reply: Reply) -> usize
    requires { at + 36 ≤ length out.old }
    ensures put { Puts (codes " " ++ outcome (reply_told reply)) at out.old result out.new }
    ensures short { result ≤ at + 36 }
{
    match reply {
        Reply::Passed => put_bytes(out, at, b" OK"),
        Reply::Stops(figures) => put_stop(out, at, figures),
        Reply::Runs(speed) => put_answer(out, at, speed.tenths()),
        Reply::Hauls(load) => put_answer(out, at, load.tenths()),
        Reply::Refused(refusal) => put_refusal(out, at, refusal),
    }
}

// Puts the figures of a stop.
#[tactic(auto, using(crate::proofs::Puts::four_joined))]
fn put_stop(out: &mut [u8], at: usize, figures: (u32, u32, u32)) -> usize
    requires { at + 36 ≤ length out.old }
    ensures put { Puts (codes " " ++ outcome (stops figures.0 figures.1 figures.2)) at out.old result out.new }
    ensures short { result ≤ at + 36 }
{
    let (distance, least, steps) = figures;
    let at = put_bytes(out, at, b" OK");
    let at = put_figure(out, at, distance);
    let at = put_figure(out, at, least);
    put_figure(out, at, steps)
}

// Puts an answer of one figure.
#[tactic(auto, using(crate::proofs::Puts::joined))]
fn put_answer(out: &mut [u8], at: usize, figure: u32) -> usize
    requires { at + 14 ≤ length out.old }
    ensures put { Puts (codes " " ++ (codes "OK" then decimal figure)) at out.old result out.new }
    ensures short { result ≤ at + 14 }
{
    let at = put_bytes(out, at, b" OK");
    put_figure(out, at, figure)
}

// Puts a refusal.
#[tactic(auto, using(crate::proofs::Puts::joined))]
fn put_refusal(out: &mut [u8], at: usize, refusal: Refusal) -> usize
    requires { at + 14 ≤ length out.old }
    ensures put { Puts (codes " " ++ (codes "NO" then decimal (number_of refusal))) at out.old result out.new }
    ensures short { result ≤ at + 14 }
{
    let at = put_bytes(out, at, b" NO");
    put_figure(out, at, refusal.number())
}
