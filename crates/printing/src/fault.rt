ghost use Rattle.std.specs.Prelude.{◌+◌, ◌≤◌, ◌++◌, length, codes, IfOk};
ghost use Rattle.rules.specs.Faults.{layer_text};
ghost use Rattle.printing.specs.Lines.{Printed, fault_line, fault_told};
ghost use Rattle.printing.specs.Puts.{Puts};

use crate::put::{ROOM, put_bytes, put_figure};
use rules::{Fault, Layer, Refusal};

/// Prints a fault as a line, and answers how long the line is: `FAULT`, the layer, the line at fault and the number of the refusal. A
/// buffer of fewer than 64 bytes is refused and left as it was; in any other the bytes past the line are left.
#[tactic(auto, unfolding(crate::specs::Puts::Puts))]
pub fn print_fault(out: &mut [u8], fault: Fault) -> Result<usize, Refusal>
    ensures printed { Printed (fault_line fault) out.old result out.new }
    ensures short { IfOk result (λ n. n ≤ 64) }
{
    if out.len() < ROOM {
        return Err(Refusal::ShortBuffer);
    }
    Ok(put_line(out, fault))
}

// Puts the line at the head of a buffer.
#[tactic(auto, using(crate::proofs::Puts::joined))]
fn put_line(out: &mut [u8], fault: Fault) -> usize
    requires { 64 ≤ length out.old }
    ensures put { Puts (fault_line fault) 0 out.old result out.new }
    ensures short { result ≤ 64 }
{
    let at = put_fault(out, fault);
    put_bytes(out, at, b"\n")
}

// Puts all of the line but its end.
#[tactic(auto, using(crate::proofs::Puts::three_joined), unfolding(crate::specs::Lines::fault_told))]
fn put_fault(out: &mut [u8], fault: Fault) -> usize
    requires { 33 ≤ length out.old }
    ensures put { Puts (fault_told fault) 0 out.old result out.new }
    ensures short { result ≤ 33 }
{
    let at = put_layer(out, 0, fault.layer());
    let at = put_figure(out, at, fault.line);
    put_figure(out, at, fault.refusal.number())
}

// Puts what is at fault.
fn put_layer(out: &mut [u8], at: usize, layer: Layer) -> usize
    requires { at + 11 ≤ length out.old }
    ensures put { Puts (codes "FAULT " ++ layer_text layer) at out.old result out.new }
    ensures short { result ≤ at + 11 }
{
    match layer {
        Layer::Text => put_bytes(out, at, b"FAULT TEXT"),
        Layer::Law => put_bytes(out, at, b"FAULT LAW"),
        Layer::Sheet => put_bytes(out, at, b"FAULT SHEET"),
    }
}
