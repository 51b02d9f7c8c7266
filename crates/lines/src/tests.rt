//! What no clause says: that runs end as they should with memory at hand, and worked runs.

use crate::*;
use ot_io::{MemSink, MemSource, Sink};
use std::test::Fail;

/// Room for all that a run here writes.
const ROOM: usize = 1 << 20;

/// Why the lines of a `Doubler` are refused.
#[derive(Clone, Copy, Debug, PartialEq, Eq)]
enum Refusal {
    /// A line begins with '!'.
    Mark,
    /// The input ended before the line "end".
    Unended,
}

/// Answers each line by the line twice, in one line. Where it is strict the last line must be
/// "end".
#[derive(Drop)]
struct Doubler {
    is_strict: bool,
    is_ended: bool,
}

impl Responder for Doubler {
    ghost use Rattle.std.specs.Prelude.{◌≡◌, ◌++◌, ◌∷◌, []};
    ghost use Rattle.lines.specs.declared.tests.Refusal.TheVariants.{Mark, Unended};

    type Fault = Refusal;

    ghost answers = { λ _ line text _. text ≡ line ++ line ++ 10 ∷ [] };

    ghost refuses = { λ _ _ fault. fault ≡ Mark };

    ghost refuses_end = { λ _ fault. fault ≡ Unended };

    fn respond<O: Sink>(
        &mut self,
        line: &[u8],
        replies: &mut Replies,
        out: &mut O,
    ) -> Result<(), Trouble<Refusal>> {
        if line.first() == Some(&b'!') {
            return Err(Trouble::Refused(Refusal::Mark));
        }
        replies.add(out, line)?;
        replies.add(out, line)?;
        replies.add(out, b"\n")?;
        self.is_ended = line == b"end".as_slice();
        Ok(())
    }

    fn end(&self) -> Result<(), Refusal> {
        if self.is_strict && !self.is_ended {
            return Err(Refusal::Unended);
        }
        Ok(())
    }
}

fn new_doubler(is_strict: bool) -> Doubler {
    Doubler {
        is_strict,
        is_ended: false,
    }
}

/// Runs a doubler over the input, and gives the ending and what was written.
fn run(
    rt: &HostRuntime,
    is_strict: bool,
    input: &mut MemSource,
    failing_writes: &[u64],
) -> Result<(Ending<Refusal>, Vec<u8>), Fail> {
    let mut out = MemSink::with_capacity(rt.alloc(), ROOM, 30_000, failing_writes)?;
    let ending = run_lines(rt.alloc(), &mut new_doubler(is_strict), input, &mut out);
    Ok((ending, out.written().to_vec(rt.alloc())?))
}

#[test]
fn each_run_ends_as_its_lines_say(rt: HostRuntime) -> Result<(), Fail> {
    let refused = |line: u64, fault: Refusal| Ending::Refused { line, fault };
    for (label, is_strict, input, ending, written) in [
        ("no input", false, "", Ending::Done, ""),
        ("an empty line", false, "\n", Ending::Done, "\n"),
        ("two lines", false, "ab\nc\n", Ending::Done, "abab\ncc\n"),
        ("no last end", false, "ab\nc", Ending::Done, "abab\ncc\n"),
        (
            "the second refused",
            false,
            "a\n!\nb\n",
            refused(2, Refusal::Mark),
            "aa\n",
        ),
        (
            "the last refused",
            false,
            "a\n!",
            refused(2, Refusal::Mark),
            "aa\n",
        ),
        (
            "an end that may be",
            true,
            "a\nend",
            Ending::Done,
            "aa\nendend\n",
        ),
        (
            "an end refused",
            true,
            "a\nb\n",
            refused(3, Refusal::Unended),
            "aa\nbb\n",
        ),
        (
            "no input refused",
            true,
            "",
            refused(1, Refusal::Unended),
            "",
        ),
    ] {
        for length in [1, 3, 100] {
            let pieces = [length; 20];
            let mut source = MemSource::new(input.as_bytes(), &pieces, &[]);
            let (got, out) = run(&rt, is_strict, &mut source, &[])?;
            assert_eq!(rt; got, ending, "{label}, in pieces of {length}");
            assert_eq!(rt;
                out.as_slice(),
                written.as_bytes(),
                "{label}, in pieces of {length}"
            );
        }
    }
    Ok(())
}

#[test]
fn a_line_has_at_most_262144_bytes(rt: HostRuntime) -> Result<(), Fail> {
    for (label, bytes, end, ending) in [
        ("the longest line", 262_144, "\n", Ending::Done),
        (
            "the longest line without its end",
            262_144,
            "",
            Ending::Done,
        ),
        ("one more byte", 262_145, "\n", Ending::TooLong { line: 2 }),
        (
            "one more byte without an end",
            262_145,
            "",
            Ending::TooLong { line: 2 },
        ),
        (
            "no end in all of the buffer",
            400_000,
            "",
            Ending::TooLong { line: 2 },
        ),
    ] {
        let mut input = Vec::from_slice(rt.alloc(), b"x\n")?;
        input.extend_from_slice(&vec![in rt.alloc(); b'a'; bytes]?)?;
        input.extend_from_slice(end.as_bytes())?;
        for length in [1, 7, 65_536] {
            let pieces = vec![in rt.alloc(); length; 400_010]?;
            let mut source = MemSource::new(&input, &pieces, &[]);
            let (got, out) = run(&rt, false, &mut source, &[])?;
            assert_eq!(rt; got, ending, "{label}, in pieces of {length}");
            let written = if ending == Ending::Done {
                4 + 2 * bytes
            } else {
                3
            };
            assert_eq!(rt; out.len(), written, "{label}, in pieces of {length}");
        }
    }
    Ok(())
}

#[test]
fn a_fault_leaves_a_front_of_the_answers(rt: HostRuntime) -> Result<(), Fail> {
    let mut input = vec![in rt.alloc(); b'a'; 40_000]?;
    input.push(b'\n')?;
    // The doubled line passes the mark: 40,000 bytes go out, then the rest, at most 30,000 a write.
    for (failing, written) in [(0, 0), (1, 30_000), (2, 40_000), (3, 70_000), (4, 80_001)] {
        let mut source = MemSource::new(&input, &[], &[]);
        let (got, out) = run(&rt, false, &mut source, &[failing])?;
        let ending = if failing < 4 {
            Ending::WriteFault
        } else {
            Ending::Done
        };
        assert_eq!(rt; got, ending, "write {failing} fails");
        assert_eq!(rt; out.len(), written, "write {failing} fails");
    }
    for (failing, ending, written) in [
        (0, Ending::ReadFault, ""),
        (1, Ending::ReadFault, "aa\n"),
        (2, Ending::ReadFault, "aa\nbb\n"),
        (3, Ending::Done, "aa\nbb\ncc\n"),
    ] {
        let failing = [failing];
        let mut source = MemSource::new(b"a\nb\nc", &[2, 3], &failing);
        let (got, out) = run(&rt, false, &mut source, &[])?;
        assert_eq!(rt; got, ending, "read {failing:?} fails");
        assert_eq!(rt;
            out.as_slice(),
            written.as_bytes(),
            "read {failing:?} fails"
        );
    }
    Ok(())
}
