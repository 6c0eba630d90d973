//! Which jobs go into a bundle.

ghost use Rattle.std.specs.Prelude.{◌≡◌, ◌==◌, ◌++◌, ◌∷◌, [], min, find, if◌then◌else◌, IfOk, OnOk, map, option_copied};
ghost use Rattle.std.specs.List.{fold};
ghost use Rattle.uu_core.specs.Due.{goes_before};
ghost use Rattle.uuspool.specs.Internal.Choice.{heads_to_go, is_head_behind, is_to_go, named_head};

use std::alloc::{AllocError, Global};
use uu_core::JobHead;
use uu_names::Grade;
use uu_request::Packing;

/// The numbers of those of a system's jobs that go into a bundle, if there is room.
pub(crate) fn numbers_of(
    alloc: Global,
    packing: &Packing,
    lowest: Grade,
    heads: &[JobHead],
) -> Result<Vec<u32>, AllocError>
    ensures { IfOk result (λ numbers. numbers.items ≡ map (λ head. head.number) (heads_to_go packing.now lowest heads.now)) }
{
    let mut numbers = Vec::new(alloc);
    if packing.no_jobs {
        return Ok(numbers);
    }
    let first = named_head(packing.after, heads);
    for head in heads {
        add_if_to_go(lowest, first, head, &mut numbers)?;
    }
    Ok(numbers)
}

// Adds the number of the job, if it has this grade or a higher one and comes after that job.
fn add_if_to_go(
    lowest: Grade,
    first: Option<&JobHead>,
    head: &JobHead,
    numbers: &mut Vec<u32>,
) -> Result<(), AllocError>
    ensures { OnOk result (numbers.new.items ≡ numbers.old.items ++ (if is_to_go lowest (option_copied first.entry) head.now then head.now.number ∷ [] else [])) }
{
    if is_to_go(lowest, first, head) {
        numbers.push(head.number)?;
    }
    Ok(())
}

// The named job, if it is there.
fn named_head(number: Option<u32>, heads: &[JobHead]) -> Option<&JobHead>
    ensures { option_copied result ≡ named_head number heads.now }
{
    match number {
        Some(number) => head_of_number(number, heads),
        None => None,
    }
}

// The job of this number, if it is there.
fn head_of_number(number: u32, heads: &[JobHead]) -> Option<&JobHead>
    ensures { option_copied result ≡ find (λ head. head.number == number) heads.now }
{
    heads.iter().find(|head| head.number == number)
}

// Whether the job has this grade or a higher one and comes after that job.
fn is_to_go(lowest: Grade, first: Option<&JobHead>, head: &JobHead) -> bool
    ensures { result ≡ is_to_go lowest (option_copied first.entry) head.now }
{
    head.grade <= lowest && is_behind(first, head)
}

// Whether the job comes after that one, if there is one.
fn is_behind(first: Option<&JobHead>, head: &JobHead) -> bool
    ensures { result ≡ is_head_behind (option_copied first.entry) head.now }
{
    match first {
        Some(first) => goes_before(first, head),
        None => true,
    }
}

// Whether the first of two jobs goes before the second.
fn goes_before(one: &JobHead, other: &JobHead) -> bool
    ensures { result ≡ goes_before one.now other.now }
{
    one.grade < other.grade || (one.grade == other.grade && one.number < other.number)
}

/// The least number of these jobs, or of this number, which is greater than all of them.
pub(crate) fn least_number(heads: &[JobHead], next: u32) -> u32
    ensures { result ≡ fold min next (map (λ head. head.number) heads.now) }
{
    let mut least = next;
    for head in heads {
        least = least.min(head.number);
    }
    least
}
