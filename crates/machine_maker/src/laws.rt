//! Laws of the machines that are made: facts for the proofs of the crates above, which cost nothing to call.
ghost use Rattle.std.specs.Prelude.{◌≡◌, [], ◌∷◌};
ghost use Rattle.machine_maker.specs.Maker.{BreaksNoRule, IsLight};
ghost use Rattle.machine_maker.specs.Summary.{summary, summary_text};

/// The parts of a machine of any number, and of any size to 64, break no rule of a description. So no machine is
/// refused. Its weight is at most 1,048,576, for which a run has room.
pub fn law_made()
    ensures rules { BreaksNoRule }
    ensures weight { IsLight }
{}

/// The summaries of two machines, of the least and of the greatest number. Their operations were counted apart from
/// this.
pub fn law_rows()
    ensures least { summary 0 1 ≡ summary_text 0 1 1782 34 30 30
        (2 ∷ 4 ∷ 8 ∷ 5 ∷ 4 ∷ 8 ∷ 5 ∷ 5 ∷ 7 ∷ 2 ∷ 2 ∷ 3 ∷ 2 ∷ 2 ∷ 2 ∷ 3 ∷ []) }
    ensures greatest { summary 4294967295 1 ≡ summary_text 4294967295 1 1819 33 31 31
        (1 ∷ 8 ∷ 5 ∷ 4 ∷ 8 ∷ 5 ∷ 5 ∷ 7 ∷ 6 ∷ 2 ∷ 3 ∷ 2 ∷ 2 ∷ 2 ∷ 3 ∷ 1 ∷ []) }
{}
