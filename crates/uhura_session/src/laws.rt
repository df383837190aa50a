//! The laws of answers: what `show` answers is a script of the same state, an error is told by its text, the slots of
//! requirements change no answer, an answer stands until an edit is accepted, and the answer to `prove` may be checked.
ghost use Rattle.std.specs.Prelude.{◌≡◌, ◌⊎◌, ℕ, List, IsTrue, IsFalse};
ghost use Rattle.uhura_plan.specs.Lists.{Lists};
ghost use Rattle.uhura_veto.specs.State.{State};
ghost use Rattle.uhura_worst.specs.Slots.{IsSameButForSlots};
ghost use Rattle.uhura_command.specs.Replay.{IsSameUpToSlots};
ghost use Rattle.uhura_command.specs.State.{IsSoundState};
ghost use Rattle.uhura_text.specs.Lines.{lines};
ghost use Rattle.uhura_cert.specs.Document.{Document};
ghost use Rattle.uhura_cert.specs.Text.{IsRead};
ghost use Rattle.uhura_check.specs.Confirmed.{Confirmed};
ghost use Rattle.uhura_check.specs.Right.{IsRight};
ghost use Rattle.uhura_search.specs.Revised.{IsRevised};
ghost use Rattle.uhura_search.specs.Searcher.{Searched, IsSearcher};
ghost use Rattle.uhura_session.specs.Answers.{IsProved, shown_text};
ghost use Rattle.uhura_session.specs.ReadsBack.{ShowsReadBack};
ghost use Rattle.uhura_session.specs.Refused.{RefusalsAreErrors};
ghost use Rattle.uhura_session.specs.Searching.{IsAnswered, Searches};

/// The answer to `show`, read as a script by a new dialogue, makes the same state up to the slots of its
/// requirements. Each line of it is accepted, or is the comment `# end`.
pub fn show_reads_back()
    ensures { ShowsReadBack }
{}

/// A line is refused exactly where its answer begins as an `error` line.
pub fn refusals_are_errors()
    ensures { RefusalsAreErrors }
{}

/// States that are the same up to slots are shown alike, and are asked alike: their best proposals cost the same and
/// have one branch, by the law `slots_settle_nothing`. So no answer depends on the history that made the state.
pub fn slots_change_no_answer()
    ensures shown { (a b : State) → IsSameUpToSlots a b → shown_text a ≡ shown_text b }
    ensures asked { (a b : State) → IsSoundState a → IsSoundState b → IsSameUpToSlots a b →
        IsSameButForSlots a b }
{}

/// After an answered question its answer stands. While it stands, no line but an accepted edit changes anything of
/// the searcher, so a question that is asked again settles and pushes nothing. An accepted edit ends that.
pub fn answers_stand_until_an_edit()
    ensures stands { (old new : Searched) (plan : Lists) → IsAnswered old new plan →
        IsTrue new.stands }
    ensures kept { (state : State) (line : List ℕ) (old new : Searched) → IsTrue old.stands →
        Searches state line old new → (new ≡ old) ⊎ IsRevised old new }
    ensures edited { (old new : Searched) → IsSearcher old → IsRevised old new →
        IsFalse new.stands }
{}

/// Whoever has the answer to `prove` read and checked, by this program or by another that keeps the definitions, may
/// rely on the yes: it speaks of the state that was asked, up to the slots of requirements, and its answer is right.
/// Nothing that is allowed, whole or in k-ths, costs less than its proposal, and nothing that costs the same has an
/// earlier branch; or it has none, and nothing is allowed.
pub fn checked_proofs_are_right()
    ensures asked { (state : State) (text : List ℕ) (d : Document) → IsProved state text →
        IsRead (lines text) d → IsSameUpToSlots d.state state }
    ensures right { (d : Document) (text : List ℕ) → IsRead (lines text) d → Confirmed d →
        IsRight d.state d.answer }
    ensures confirmed { (state : State) (text : List ℕ) (d : Document) → IsProved state text →
        IsRead (lines text) d → Confirmed d }
{}
