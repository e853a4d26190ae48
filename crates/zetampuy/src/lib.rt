// Run files answered for C: calls on numbers and bytes, over the library `answering`.
#![tactic(auto)]

ghost use Rattle.std.specs.Prelude.{◌≡◌, ℕ, ◌<◌, ◌≤◌, true, false, pos, [], length, None, Ok, Err, Option, Result, IfSome};
ghost use Rattle.answering.specs.Alone.{NthAnswered, AnsweredAlone, FaultPut, Counted, Heads};
ghost use Rattle.answering.specs.declared.unanswered.Unanswered.{Unanswered as NoAnswer};
ghost use Rattle.printing.specs.Lines.{fault_line};
ghost use Rattle.rules.specs.Book.{Book, new_book};
ghost use Rattle.rules.specs.declared.fault.Fault.{Fault as FileFault};
ghost use Rattle.rules.specs.declared.refusal.Refusal.{Refusal as Refused};
ghost use Rattle.runfile.specs.Run.{Request, IsRun, IsFault};
ghost use Rattle.zetampuy.specs.Codes.{nine_tenths, no_reckoner, refusal_code, answer_code, fault_code, count_code};
ghost use Rattle.zetampuy.specs.Handle.{ReadIn};

mod codes;
pub mod handle;
pub mod held;
mod unboxed;

use answering::Reckoner;
use codes::{NO_RECKONER, of_answer, of_count, of_fault};
use equipment::NineTenths;
use handle::Handle;
use std::alloc::Global;

/// Makes a reckoner, in place of the one that is there, if any, and tells whether there was memory for it. No other call can want
/// memory.
#[unsafe(no_mangle)]
pub extern "C" fn zetampuy_new(heap: Global, handle: &mut Handle) -> bool
    ensures told { result ≡ handle.new.made }
    ensures made { IfSome handle.new.held.reckoner (λ r. (r.sheet ≡ new_book) × (r.file ≡ None) × (r.output ≡ [])) }
{
    zetampuy_free(heap, handle);
    let Ok(reckoner) = Box::new(heap, Reckoner::new()) else {
        return false;
    };
    *handle = Handle::of(reckoner);
    true
}

/// Frees the reckoner, if there is one.
#[unsafe(no_mangle)]
pub extern "C" fn zetampuy_free(heap: Global, handle: &mut Handle)
    ensures { handle.new.made ≡ false }
{
    let _ = handle.take(heap);
}

/// How many questions a run file asks, or below 0 the number of its fault.
#[unsafe(no_mangle)]
pub extern "C" fn zetampuy_questions(heap: Global, handle: &mut Handle, text: &[u8]) -> i32
    ensures made { handle.new.made ≡ handle.old.made }
    ensures none { handle.old.made ≡ false → result ≡ no_reckoner }
    ensures counted { handle.old.made ≡ true → (count : Result ℕ FileFault) × Counted text.now count × (result ≡ count_code count) }
    ensures accepts { (q : Request) (b : Book) → IsRun text.now q b → handle.old.made ≡ true → result ≡ pos (length q.questions) }
    ensures refuses { (f : FileFault) → IsFault text.now f → handle.old.made ≡ true → result ≡ refusal_code f.refusal }
    ensures left { ReadIn text.now handle.old.held.reckoner handle.new.held.reckoner }
{
    let Some(mut reckoner) = handle.take(heap) else {
        return NO_RECKONER;
    };
    let count = reckoner.count_questions(text);
    *handle = Handle::of(reckoner);
    of_count(count)
}

/// Puts the line that answers one question of a run file, counted from 1, at the head of a buffer of at least 64 bytes, and tells
/// its length. Returned are 0 where the file asks no such question, and below 0 the number of the fault of the file, or 17 where
/// the buffer is too short. Where no line is put, the buffer is left.
#[unsafe(no_mangle)]
pub extern "C" fn zetampuy_answer(
    heap: Global,
    handle: &mut Handle,
    text: &[u8],
    number: u32,
    out: &mut [u8],
) -> i32
    ensures made { handle.new.made ≡ handle.old.made }
    ensures none { handle.old.made ≡ false → (result ≡ no_reckoner) × (out.new ≡ out.old) }
    ensures answered { handle.old.made ≡ true → (answer : Result ℕ NoAnswer) × AnsweredAlone nine_tenths text.now number out.old answer out.new
        × (result ≡ answer_code answer) }
    ensures accepts { (q : Request) (b : Book) → IsRun text.now q b → handle.old.made ≡ true → 64 ≤ length out.old
        → (answer : Result ℕ NoAnswer) × NthAnswered (nine_tenths q.points) q b number out.old answer out.new × (result ≡ answer_code answer) }
    ensures refuses { (f : FileFault) → IsFault text.now f → handle.old.made ≡ true → 64 ≤ length out.old → result ≡ refusal_code f.refusal }
    ensures left { 64 ≤ length out.old
        → ReadIn text.now handle.old.held.reckoner handle.new.held.reckoner }
    ensures kept { length out.old < 64 → handle.new.held.reckoner ≡ handle.old.held.reckoner }
{
    let Some(mut reckoner) = handle.take(heap) else {
        return NO_RECKONER;
    };
    let answer = reckoner.answer_alone(text, number, &NineTenths, out);
    *handle = Handle::of(reckoner);
    of_answer(answer)
}

/// Puts the line that tells the fault of a text at the head of a buffer of at least 64 bytes, and tells its length. Returned are 0
/// where the text is a run file and has no fault, and below 0 17 where the buffer is too short. Where no line is put, the buffer
/// is left.
#[unsafe(no_mangle)]
pub extern "C" fn zetampuy_fault(
    heap: Global,
    handle: &mut Handle,
    text: &[u8],
    out: &mut [u8],
) -> i32
    ensures made { handle.new.made ≡ handle.old.made }
    ensures none { handle.old.made ≡ false → (result ≡ no_reckoner) × (out.new ≡ out.old) }
    ensures told { handle.old.made ≡ true → (told : Result (Option ℕ) Refused) × FaultPut text.now out.old told out.new
        × (result ≡ fault_code told) }
    ensures accepts { (q : Request) (b : Book) → IsRun text.now q b → handle.old.made ≡ true → 64 ≤ length out.old → result ≡ pos 0 }
    ensures refuses { (f : FileFault) → IsFault text.now f → handle.old.made ≡ true → 64 ≤ length out.old
        → (k : ℕ) × Heads (fault_line f) out.old k out.new × (result ≡ pos k) }
    ensures left { 64 ≤ length out.old
        → ReadIn text.now handle.old.held.reckoner handle.new.held.reckoner }
    ensures kept { length out.old < 64 → handle.new.held.reckoner ≡ handle.old.held.reckoner }
{
    let Some(mut reckoner) = handle.take(heap) else {
        return NO_RECKONER;
    };
    let told = reckoner.put_fault(text, out);
    *handle = Handle::of(reckoner);
    of_fault(told)
}

#[cfg(test)]
mod tests {
    use super::*;

    const RUN: &[u8] =
        b"RUN 1\nF 1000\nPUL 2\n0 40000\n400 20000\nVEH 2\nL 1000 400 1\nW 600 200 1\nSEC 2\n1500 0 0 0 0\n1500 80 0 0 0\nASK 3\nS 0 100 10\nM 200 600\nS 2500 100 10\n";

    const FAULT: &[u8] = b"RUN 1\nF 399\n";

    #[test]
    fn calls_are_answered(rt: HostRuntime) {
        let heap = rt.alloc();
        let mut handle = Handle::none();
        assert!(rt; zetampuy_questions(heap, &mut handle, RUN) == NO_RECKONER);
        assert!(rt; zetampuy_new(heap, &mut handle));
        assert!(rt; zetampuy_questions(heap, &mut handle, RUN) == 3);
        let mut out = [0; 64];
        assert!(rt; zetampuy_answer(heap, &mut handle, RUN, 2, &mut out) == 11);
        assert!(rt; out.starts_with(b"2 OK 26000\n"));
        assert!(rt; zetampuy_fault(heap, &mut handle, FAULT, &mut out) == 16);
        assert!(rt; out.starts_with(b"FAULT SHEET 2 6\n"));
        zetampuy_free(heap, &mut handle);
        assert!(rt; zetampuy_questions(heap, &mut handle, RUN) == NO_RECKONER);
    }
}
