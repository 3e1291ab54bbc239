//! Laws of what is kept of a history when a unit runs, and what is folded.

ghost use Rattle.std.specs.Prelude.{ℕ, ◌≡◌, ◌≤◌, ◌+◌, ◌∷◌, ◌++◌, List, length, true};
ghost use Rattle.unit_model.specs.Steps.{Step};
ghost use Rattle.unit_model.specs.Base.{base_of, kept_steps, folded_steps, folds};
ghost use Rattle.unit_model.specs.Contents.{Opening};
ghost use Rattle.unit_model.specs.Lawful.{IsLawful};

/// The folded steps followed by the kept ones are the history. The folded ones are a lawful history. So its blocks, its
/// pending attentions and its tasks are those of the base.
pub fn folded_and_kept_are_the_history()
    ensures whole { (h : List Step) → kept_steps h ++ folded_steps h ≡ h }
    ensures count { (h : List Step) → length (folded_steps h) ≡ base_of h }
    ensures lawful { (o : Opening) (h : List Step) → IsLawful o h → IsLawful o (folded_steps h) }
    ensures grows { (s : Step) (past : List Step) → base_of past ≤ base_of (s ∷ past) }
{}

/// At most 4,095 steps are kept before one is added that folds, and 4,224 at any time.
pub fn few_steps_are_kept()
    ensures before { (s : Step) (past : List Step) → folds s ≡ true → length past ≤ base_of (s ∷ past) + 4095 }
    ensures kept { (o : Opening) (h : List Step) → IsLawful o h → length h ≤ base_of h + 4224 }
{}
