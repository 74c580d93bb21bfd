//! What follows for an event from the ways to touch it: facts for the proofs of the crates above, which cost nothing to
//! call.
ghost use Rattle.event_chip.specs.Laws.{Counts, FollowsLine, Holds, KeepsRaise, LeavesLevel, LevelStays, NeedsReference, ParksAtSixteen, Revives};

/// A raise of an edge event stays until it is claimed, also one between a claim and its finish.
pub fn law_raise_kept()
    ensures { KeepsRaise }
{}

/// A run of a level event that ends under an asserted line raises the event again, and any other run does not. Only the
/// end of a run clears a level status, and neither a claim nor a drop of the line raises one.
pub fn law_line()
    ensures follows { FollowsLine }
    ensures stays { LevelStays }
    ensures leaves { LeavesLevel }
{}

/// A level event is parked exactly if at least sixteen runs ended since its line was asserted, with no drop and no
/// assert since then. A drop or an assert frees it.
pub fn law_parked()
    ensures parks { ParksAtSixteen }
    ensures revives { Revives }
{}

/// References count up to 255 and down to 0, one at a time.
pub fn law_counts()
    ensures { Counts }
{}

/// A listed event that was claimed is not dispatched again before its run has ended, whatever else happens. A listed
/// event without references is not dispatched.
pub fn law_enabled()
    ensures holds { Holds }
    ensures needs { NeedsReference }
{}
