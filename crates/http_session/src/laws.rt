//! Laws of sessions. The function does nothing: its contract is the law.
ghost use Rattle.std.specs.Prelude.{◌≡◌, ℕ, List, map, false, ◌++◌};
ghost use Rattle.session_history.specs.Marks.{answers_in, merged_mark};
ghost use Rattle.session_history.specs.Histories.{IsHistory};
ghost use Rattle.http_session.specs.Views.{SessionView};
ghost use Rattle.http_session.specs.Taken.{Past, Took, phase_of, reads};

/// Two sessions that were fed the same bytes and given the same answers have done the same, however the bytes were cut, wherever both
/// can't go on without more bytes or an answer.
pub fn two_sessions()
    // A session that waits for an answer, or has ended, has the history that its bytes make.
    ensures due { (s : SessionView) (fed : List ℕ) (past : Past) → Took s fed past → reads (phase_of past) ≡ false → IsHistory fed past.marks past.came }
    ensures same { (s u : SessionView) (fed : List ℕ) (past other : Past) → Took s fed past → Took u fed other
        → IsHistory fed past.marks past.came → IsHistory fed other.marks other.came → answers_in past.marks ≡ answers_in other.marks
        → (map merged_mark past.marks ≡ map merged_mark other.marks) × (past.came ≡ other.came) }
    // What they said, and have still to say, is the same where their marks are.
    ensures said { (s u : SessionView) (fed : List ℕ) (past other : Past) → Took s fed past → Took u fed other → past.marks ≡ other.marks
        → past.said ++ s.out ≡ other.said ++ u.out }
{}
