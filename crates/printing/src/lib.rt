// The lines that are printed of replies and of faults, straight into a buffer of the caller.
#![tactic(auto)]

pub mod fault;
mod put;
pub mod reply;

pub use fault::print_fault;
pub use reply::print_reply;

#[cfg(test)]
mod tests {
    use super::*;
    use history::Reply;
    use rules::{Fault, Refusal};
    use units::{Load, Speed};

    // What a buffer holds where nothing was printed.
    const FILL: u8 = b'#';

    // The line stands at the head of the buffer, and nothing was printed past it.
    fn holds(out: &[u8], length: usize, line: &[u8]) -> bool {
        length == line.len()
            && out.starts_with(line)
            && out[length..].iter().all(|byte| *byte == FILL)
    }

    #[test]
    fn lines_are_printed(rt: HostRuntime) {
        let stop = (24_917, 74_250, 1);
        let longest = (u32::MAX, u32::MAX, u32::MAX);
        let replies: [(u32, Reply, &[u8]); 7] = [
            (1, Reply::Stops(stop), b"1 OK 24917 74250 1\n"),
            (
                2,
                Reply::Hauls(Load::within_limit(26_000).unwrap()),
                b"2 OK 26000\n",
            ),
            (3, Reply::Refused(Refusal::LineTooShort), b"3 NO 9\n"),
            (4, Reply::Passed, b"4 OK\n"),
            (10, Reply::Runs(Speed::capped(1_050)), b"10 OK 1050\n"),
            (200, Reply::Refused(Refusal::HaulsNothing), b"200 NO 13\n"),
            (
                u32::MAX,
                Reply::Stops(longest),
                b"4294967295 OK 4294967295 4294967295 4294967295\n",
            ),
        ];
        for (question, reply, line) in replies {
            let mut out = [FILL; 64];
            let length = print_reply(&mut out, question, reply).unwrap_or(0);
            assert!(rt; holds(&out, length, line), "question {question}");
        }
        let faults: [(u32, Refusal, &[u8]); 3] = [
            (4, Refusal::MalformedLine, b"FAULT TEXT 4 15\n"),
            (5, Refusal::UnlawfulLaw, b"FAULT LAW 5 14\n"),
            (100, Refusal::UnlawfulVehicle, b"FAULT SHEET 100 1\n"),
        ];
        for (line, refusal, text) in faults {
            let mut out = [FILL; 64];
            let length = print_fault(&mut out, Fault { line, refusal }).unwrap_or(0);
            assert!(rt; holds(&out, length, text), "line {line}");
        }
        let mut out = [FILL; 63];
        let reply = print_reply(&mut out, 4, Reply::Passed);
        let fault = print_fault(
            &mut out,
            Fault {
                line: 4,
                refusal: Refusal::MalformedLine,
            },
        );
        assert!(rt; reply == Err(Refusal::ShortBuffer) && fault == Err(Refusal::ShortBuffer));
        assert!(rt; out.iter().all(|byte| *byte == FILL));
    }
}
