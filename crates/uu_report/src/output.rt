//! What is printed for the replies to a line's commands, and the line's status.

ghost use Rattle.std.specs.Prelude.{◌≡◌, IfOk};
ghost use Rattle.std.specs.String.{string_bytes};
ghost use Rattle.std.specs.List.{list_any};
ghost use Rattle.uu_report.specs.Replies.{is_refused};
ghost use Rattle.uu_report.specs.Outputs.{answer_text, answers_text, output_text, replies_status};

use crate::links::append_skipped;
use crate::reply::{is_refused, reply_line};
use std::alloc::{AllocError, Global};
use uu_core::{Reply, Subject};

/// The lines of the replies, in their order, each after the text of its subject.
pub fn answer_lines(
    alloc: Global,
    subjects: &[Subject],
    replies: &[Reply],
) -> Result<Vec<u8>, AllocError>
    ensures { IfOk result (λ lines. lines.items ≡ answers_text subjects.now replies.now) }
{
    let mut lines = Vec::new(alloc);
    for (subject, reply) in subjects.iter().zip(replies) {
        let line = answer_line(alloc, subject, *reply)?;
        lines.extend_from_slice(line.as_bytes())?;
    }
    Ok(lines)
}

/// The output of a line whose commands were all answered: the lines of the replies, and then
/// `skipped LINE` for each line of the input that was skipped.
pub fn output_of(
    alloc: Global,
    subjects: &[Subject],
    skipped: &[u32],
    replies: &[Reply],
) -> Result<Vec<u8>, AllocError>
    ensures { IfOk result (λ output. output.items ≡ output_text subjects.now skipped.now replies.now) }
{
    let mut output = answer_lines(alloc, subjects, replies)?;
    append_skipped(alloc, &mut output, skipped)?;
    Ok(output)
}

/// The status of a line with these replies: 1 if one of them is a refusal, otherwise 0.
pub fn status_of(replies: &[Reply]) -> u8
    ensures { result ≡ replies_status replies.now }
{
    if are_any_refused(replies) { 1 } else { 0 }
}

fn are_any_refused(replies: &[Reply]) -> bool
    ensures { result ≡ list_any is_refused replies.now }
{
    replies.iter().any(|reply| is_refused(*reply))
}

// The line of a reply, after the text of its subject.
fn answer_line(alloc: Global, subject: &Subject, reply: Reply) -> Result<String, AllocError>
    ensures { IfOk result (λ line. string_bytes line ≡ answer_text subject.now reply) }
{
    let answer = reply_line(alloc, reply)?;
    match subject {
        Subject::Line => Ok(answer),
        Subject::Site(name) => {
            let name = name.as_str();
            format!(in alloc; "{name} {answer}")
        }
        Subject::Entry(line) => format!(in alloc; "entry {line} {answer}"),
        Subject::Parcel(number) => format!(in alloc; "{number} {answer}"),
    }
}
