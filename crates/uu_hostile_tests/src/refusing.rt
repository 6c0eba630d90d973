// Allocations that are refused, one after the other. `tests/refuse.c`, loaded before the C library,
// refuses them. Requests of sizes that nothing else asks for say which. If it isn't loaded, these
// requests are answered, nothing is refused, and each call is only made with ample memory.
use std::alloc::Global;
use std::fmt::Debug;
use std::io::Print;
use std::process::Abort;

const ALONE: usize = 0x0800_0000;

const ONWARDS: usize = 0x0a00_0000;

const ENOUGH: usize = 0x0c00_0000;

/// More requests than any call makes.
const MOST: usize = 100_000;

/// Which requests are refused, given the first of them.
#[derive(Clone, Copy, PartialEq, Eq)]
enum Short {
    /// Only that request.
    Alone,
    /// That request and every later one.
    Onwards,
}

/// Which requests of a call are refused.
#[derive(Clone, Copy)]
pub(crate) struct Refusing {
    n: usize,
    short: Short,
}

/// No request.
pub(crate) const NONE: Refusing = Refusing {
    n: 0,
    short: Short::Alone,
};

/// Each request.
pub(crate) const ALL: Refusing = Refusing {
    n: 1,
    short: Short::Onwards,
};

impl Refusing {
    /// Whether the first request of a call is refused, or none.
    pub(crate) fn is_first(self) -> bool {
        self.n <= 1
    }

    /// From here on the requests are counted and refused.
    pub(crate) fn begin(self, alloc: Global) {
        let size = match self.short {
            Short::Alone => ALONE,
            Short::Onwards => ONWARDS,
        };
        let _told = Vec::<u8>::with_capacity(alloc, size.saturating_add(self.n));
    }
}

/// No request is refused any more. Returns whether one was.
pub(crate) fn was_refused(alloc: Global) -> bool {
    Vec::<u8>::with_capacity(alloc, ENOUGH).is_err()
}

/// What a call did after a refused request.
#[derive(Clone, Copy, PartialEq, Eq)]
pub(crate) enum Outcome {
    /// It gave the answer that it gives with ample memory.
    Answer,
    /// It reported its own lack of memory.
    Memory,
    /// It reported that the store failed.
    Store,
    /// It did something else.
    Wrong,
}

/// The outcome, if the call did what it has to do.
pub(crate) fn outcome_if(is_right: bool, outcome: Outcome) -> Outcome {
    if is_right { outcome } else { Outcome::Wrong }
}

/// A call that is made again and again.
pub(crate) trait Call {
    /// Makes the call while requests are refused. Returns whether one was, and the outcome.
    fn made<R: Abort>(&mut self, rt: &R, alloc: Global, refusing: Refusing) -> (bool, Outcome);
}

/// The outcomes for the requests of a call.
#[derive(Clone, Copy)]
struct Count {
    refused: usize,
    answers: usize,
    stores: usize,
}

/// Makes a call with its first request refused, then with its second, and so on until none was.
/// Returns the outcomes, or the first request at which the call was wrong. A call may report a
/// fault only if a request was refused.
fn counted<R: Abort, C: Call>(
    rt: &R,
    alloc: Global,
    call: &mut C,
    short: Short,
    step: usize,
) -> Result<Count, usize> {
    let mut count = Count {
        refused: 0,
        answers: 0,
        stores: 0,
    };
    for turn in 0..MOST {
        let n = turn.saturating_mul(step).saturating_add(1);
        let (refused, outcome) = call.made(rt, alloc, Refusing { n, short });
        if outcome == Outcome::Wrong || (!refused && outcome != Outcome::Answer) {
            return Err(n);
        }
        if !refused {
            return Ok(count);
        }
        count.refused = count.refused.saturating_add(1);
        count.answers = count
            .answers
            .saturating_add(usize::from(outcome == Outcome::Answer));
        count.stores = count
            .stores
            .saturating_add(usize::from(outcome == Outcome::Store));
    }
    Err(MOST)
}

/// Whether a call is wrong, with some request refused or with none.
pub(crate) fn is_wrong<R: Abort, C: Call>(rt: &R, alloc: Global, call: &mut C) -> bool {
    counted(rt, alloc, call, Short::Alone, 1).is_err()
}

/// Makes the call of this name with each of its requests refused alone, and with each, or every so
/// many, refused with all later ones. Prints the outcomes, which `tests/refused-memory` reads.
pub(crate) fn refuse_each<R: Abort + Print, C: Call>(
    rt: &R,
    alloc: Global,
    name: &str,
    step: usize,
    call: &mut C,
) {
    for (short, step, which) in [
        (Short::Alone, 1, "refused"),
        (Short::Onwards, step, "refused with all later ones"),
    ] {
        let counted = counted(rt, alloc, call, short, step);
        let Count {
            refused,
            answers,
            stores,
        } = counted.expect(rt, name);
        println!(rt; "{name}: {refused} {which}, {answers} answered, {stores} store").expect(
            rt,
            "an output",
        );
    }
}

/// A value as text.
pub(crate) fn text_of<T: Debug>(rt: &impl Abort, alloc: Global, value: &T) -> String {
    (format!(in alloc; "{value:?}")).expect(rt, "memory")
}

/// The answer of a call, as text, and whether a request was refused meanwhile.
#[derive(Drop)]
pub(crate) struct Said {
    pub(crate) refused: bool,
    pub(crate) text: String,
}

/// The answer that was just given. No request is refused any more.
pub(crate) fn note<T: Debug>(rt: &impl Abort, alloc: Global, answer: &T) -> Said {
    Said {
        refused: was_refused(alloc),
        text: text_of(rt, alloc, answer),
    }
}

/// A call that changes nothing.
pub(crate) trait Ask {
    /// Makes the call while requests are refused.
    fn said<R: Abort>(&self, rt: &R, alloc: Global, refusing: Refusing) -> Said;
}

/// Such a call, with its answer when memory is ample.
#[derive(Drop)]
struct Asking<'a, A: Ask> {
    ask: &'a A,
    ample: String,
}

impl<A: Ask> Call for Asking<'_, A> {
    fn made<R: Abort>(&mut self, rt: &R, alloc: Global, refusing: Refusing) -> (bool, Outcome) {
        let Said { refused, text } = self.ask.said(rt, alloc, refusing);
        let is_answer = text.as_str() == self.ample.as_str();
        let fault = outcome_if(is_memory(text.as_str()), Outcome::Memory);
        let outcome = if is_answer { Outcome::Answer } else { fault };
        (refused, outcome)
    }
}

/// Whether an answer, or the fault of one that isn't looked at, says that memory ran out.
fn is_memory(text: &str) -> bool {
    let is_fault = text.contains("Err(") || text.starts_with("Some(");
    let end = text.trim_end_matches(')');
    is_fault && (end.ends_with("(Memory") || end.ends_with("(AllocError"))
}

/// Makes a call that changes nothing with ample memory, which it answers, and then with each of its
/// requests refused.
pub(crate) fn refuse_each_of<R: Abort + Print, A: Ask>(rt: &R, alloc: Global, name: &str, ask: &A) {
    let ample = ask.said(rt, alloc, NONE).text;
    assert!(rt; !is_memory(ample.as_str()), "no answer with ample memory");
    refuse_each(rt, alloc, name, 1, &mut Asking { ask, ample });
}

/// The calls of these names allocated nothing, and gave the right answers.
pub(crate) fn expect_none<R: Abort + Print, T: Debug>(
    rt: &R,
    alloc: Global,
    names: &[&str],
    answers: &T,
    want: &str,
) {
    let said = note(rt, alloc, answers);
    assert!(rt; !said.refused, "memory is asked for");
    assert_eq!(rt; said.text.as_str(), want);
    for name in names {
        println!(rt; "{name}: none").expect(rt, "an output");
    }
}
