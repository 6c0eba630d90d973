//! What is printed for a reply.

ghost use Rattle.std.specs.Prelude.{◌≡◌, IfOk};
ghost use Rattle.std.specs.String.{string_bytes};
ghost use Rattle.uu_report.specs.Replies.{reply_text, is_refused};

use std::alloc::{AllocError, Global};
use uu_core::Reply;

/// The line of a reply: `done`, `job N` or `refused NAME`, with its line end.
pub fn reply_line(alloc: Global, reply: Reply) -> Result<String, AllocError>
    ensures { IfOk result (λ line. string_bytes line ≡ reply_text reply) }
{
    match reply {
        Reply::Done => String::from_str(alloc, "done\n"),
        Reply::Number(number) => format!(in alloc; "job {number}\n"),
        Reply::Refused(refusal) => {
            let name = refusal.name();
            format!(in alloc; "refused {name}\n")
        }
    }
}

/// Whether a reply is a refusal.
pub(crate) fn is_refused(reply: Reply) -> bool
    ensures { result ≡ is_refused reply }
{
    matches!(reply, Reply::Refused(_))
}
