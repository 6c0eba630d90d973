//! What follows from the definitions.
ghost use Rattle.std.specs.Prelude.{IsPermutation, filter, map};
ghost use Rattle.uu_core.specs.Due.{AreInOrder};
ghost use Rattle.uu_core.specs.State.{State, IsWellFormed, head_of};
ghost use Rattle.uu_core.specs.declared.filter.Filter.{Filter};
ghost use Rattle.uu_questions.specs.Listing.{fits, listed_jobs};

/// The list has the jobs that match, by grade and number.
pub fn jobs_are_listed_in_order()
    ensures same { (wanted : Filter) (state : State) → IsPermutation (filter (fits wanted) (map head_of state.jobs)) (listed_jobs wanted state) }
    ensures order { (wanted : Filter) (state : State) → IsWellFormed state → AreInOrder (listed_jobs wanted state) }
{}
