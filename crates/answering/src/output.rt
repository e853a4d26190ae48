ghost use Rattle.std.specs.Prelude.{◌≡◌, ℕ, ◌+◌, ◌≤◌, List, [], take, length};
ghost use Rattle.history.specs.Replies.{reply_told};
ghost use Rattle.printing.specs.Lines.{reply_line, fault_line};
ghost use Rattle.answering.specs.Output.{Appended};

use history::Reply;
use printing::{print_fault, print_reply};
use rules::{Fault, Refusal};
use std::marker::Model;

// Room for 200 lines of at most 64 bytes.
const MOST_BYTES: usize = 12_800;

/// Lines of output, with room for 200 of them. They lie in the value itself, which wants no memory.
#[derive(Drop)]
pub struct Output {
    buffer: [u8; MOST_BYTES],
    used: usize,
}

impl Model for Output {
    ghost Value = { List ℕ };

    ghost view = { λ o. take o.used o.buffer };

    ghost invariant = { λ o. o.used ≤ 12800 };
}

impl Output {
    /// No lines yet.
    pub fn new() -> Output
        ensures { result ≡ [] }
    {
        Output {
            buffer: [0; MOST_BYTES],
            used: 0,
        }
    }

    /// Takes all lines out.
    pub fn clear(&mut self)
        ensures { self.new ≡ [] }
    {
        self.used = 0;
    }

    /// The bytes of the lines.
    pub fn bytes(&self) -> &[u8]
        ensures { result.now ≡ self.now }
    {
        &self.buffer[..self.used]
    }

    /// Prints the reply to a question behind the other lines; refused where fewer than 64 bytes are left.
    pub fn push_reply(&mut self, question: u32, reply: Reply) -> Result<(), Refusal>
        ensures { Appended (reply_line question (reply_told reply)) self.old result self.new }
    {
        self.used += print_reply(&mut self.buffer[self.used..], question, reply)?;
        Ok(())
    }

    /// Prints a fault behind the other lines; refused where fewer than 64 bytes are left.
    pub fn push_fault(&mut self, fault: Fault) -> Result<(), Refusal>
        ensures { Appended (fault_line fault) self.old result self.new }
    {
        self.used += print_fault(&mut self.buffer[self.used..], fault)?;
        Ok(())
    }
}
