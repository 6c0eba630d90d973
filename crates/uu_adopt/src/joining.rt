// The bytes of jobs, joined of the pieces of an earlier version.
ghost use Rattle.std.specs.Prelude.{◌≡◌, IfOk};
ghost use Rattle.uu_adopt.specs.Assembly.{bodies_from, joined, owns_piece};

use crate::assembly::{Owner, split_own};
use std::alloc::{AllocError, Global};
use uu_core::JobHead;
use uu_names::Listed;
use uu_tables::{Body, Piece};

impl Owner<Piece> for JobHead {
    ghost owns = { owns_piece };

    fn owns(&self, child: &Piece) -> bool {
        child.job == self.number
    }
}

fn joined(alloc: Global, pieces: &[Piece]) -> Result<Vec<u8>, AllocError>
    ensures { IfOk result (λ bytes. bytes.items ≡ joined pieces.now) }
{
    let mut bytes = Vec::new(alloc);
    for piece in pieces {
        bytes.extend_from_slice(piece.bytes.as_slice())?;
    }
    Ok(bytes)
}

/// The body of each job, if the pieces are in the order of the jobs.
pub(crate) fn bodies_of(
    alloc: Global,
    jobs: &[JobHead],
    pieces: &[Piece],
) -> Result<Vec<Body>, AllocError>
    ensures { IfOk result (λ bodies. bodies.items ≡ bodies_from jobs.now pieces.now) }
{
    let mut bodies = Vec::new(alloc);
    let mut rest = pieces;
    for job in jobs {
        let (own, others) = split_own(job, rest);
        let bytes = joined(alloc, own)?;
        bodies.push(Body {
            job: job.number,
            bytes: Listed::from_vec(bytes),
        })?;
        rest = others;
    }
    Ok(bodies)
}
