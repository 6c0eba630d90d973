//! The tables of the spool as plain lists of typed rows, and what each command changes in them. This
//! is decided without a database: a plan is a list of changes, each of which is a statement for each
//! table that it is about. Beside them are the rows of earlier versions of the tables.
#![tactic(auto)]

mod change;
mod definition;
mod earlier;
mod facts;
mod heads;
mod plan;
mod rows;

pub use change::{Change, JobColumns};
pub use definition::definition_text;
pub use earlier::{BareSystem, LineColumns, PIECE_BYTES, Piece, RangeColumns, WaitColumns};
pub use facts::{Facts, OfferedFacts, TakeInFacts};
pub use heads::{HeadColumns, KindColumns};
pub use plan::{Plan, TakeInPlan, make_plan, plan_take_in};
pub use rows::{
    Body, BodySize, CALL_FAILED, CALL_MADE, CallColumns, EXECUTE, EntryColumns, LinkColumns,
    NEVER_CALLED, REQUEST, SEND, SystemColumns, TakenColumns,
};
