ghost use Rattle.std.specs.Prelude.{◌≡◌, ◌≤◌, IfOk, IfSome};
ghost use Rattle.zetampuy.specs.Codes.{refusal_code, answer_code, fault_code, count_code};

use answering::Unanswered;
use rules::{Fault, Refusal};

// What is returned where there is no reckoner.
pub(crate) const NO_RECKONER: i32 = -100;

// The number of a refusal, below 0.
fn refusal(refusal: Refusal) -> i32
    ensures { result ≡ refusal_code refusal }
{
    -(refusal.number() as i32)
}

// What is returned of a question that is asked alone.
pub(crate) fn of_answer(answer: Result<usize, Unanswered>) -> i32
    requires { IfOk answer (λ k. k ≤ 64) }
    ensures { result ≡ answer_code answer }
{
    match answer {
        Ok(length) => length as i32,
        Err(Unanswered::NotAsked) => 0,
        Err(Unanswered::Faulty(fault)) => refusal(fault.refusal),
        Err(Unanswered::Refused(e)) => refusal(e),
    }
}

// What is returned of a fault that is told.
pub(crate) fn of_fault(told: Result<Option<usize>, Refusal>) -> i32
    requires { IfOk told (λ line. IfSome line (λ k. k ≤ 64)) }
    ensures { result ≡ fault_code told }
{
    match told {
        Ok(Some(length)) => length as i32,
        Ok(None) => 0,
        Err(e) => refusal(e),
    }
}

// What is returned of a count.
pub(crate) fn of_count(count: Result<usize, Fault>) -> i32
    requires { IfOk count (λ n. n ≤ 200) }
    ensures { result ≡ count_code count }
{
    match count {
        Ok(n) => n as i32,
        Err(fault) => refusal(fault.refusal),
    }
}
