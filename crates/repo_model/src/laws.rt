//! What the definitions promise. Each function here has an empty body: its contract is the law.
ghost use Rattle.std.specs.Prelude.{◌≡◌, ℕ, List, [], ◌∷◌, ◌++◌, length, IfSome};
ghost use Rattle.repo_model.specs.declared.call.Call.{Call};
ghost use Rattle.repo_model.specs.declared.entry.Entry.{Entry};
ghost use Rattle.repo_model.specs.Config.{Config};
ghost use Rattle.repo_model.specs.State.{State};
ghost use Rattle.repo_model.specs.Step.{outcome};
ghost use Rattle.repo_model.specs.History.{Legal, Follows};
ghost use Rattle.repo_model.specs.Passes.{PassView, own_entries};
ghost use Rattle.repo_model.specs.BrokenKeeper.{BreaksOnce};
ghost use Rattle.repo_model.specs.Laws.{IsLawful, IsRising, timestamps_of, NoneFull};

/// Timestamps rise, a refusal changes nothing but the notes, no step breaks the repository, and none
/// says that the journal is full.
pub fn each_step_is_lawful()
    ensures { (c : Config) (s : State) (store : List ℕ) (call : Call) → IfSome (outcome c s store call) (IsLawful s) }
{}

/// A legal history goes on by one entry.
pub fn goes_on()
    ensures { (c : Config) (s m t : State) (es : List Entry) (e : Entry) → Legal c s es m → Follows c (length es) m e t → Legal c s (es ++ e ∷ []) t }
{}

/// In a legal history what is put has greater and greater timestamps, and no entry says that the
/// journal is full.
pub fn timestamps_rise()
    ensures rise { (c : Config) (s t : State) (es : List Entry) → Legal c s es t → IsRising s.last (timestamps_of es) }
    ensures none_full { (c : Config) (s t : State) (es : List Entry) → Legal c s es t → NoneFull es }
{}

/// A caller that sees one more entry has one more entry of its own where it made that call, and
/// else the same.
pub fn own_entries_grow()
    ensures { (pass : PassView) (e : Entry) → own_entries (record pass { seen = pass.seen ++ e ∷ [] }) ≡ own_entries pass ++ own_entries (record pass { seen = e ∷ [] }) }
{}

/// A fault of the keeper at a commit breaks the repository in a legal history: the look after it is
/// answered by that fault and its entry.
pub fn keeper_fault_breaks()
    ensures { BreaksOnce }
{}
