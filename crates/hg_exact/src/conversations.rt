//! Laws of conversations, each the contract of a function with no body.

ghost use Rattle.std.specs.Prelude.{◌≡◌, ℕ, suc, List, [], ◌∷◌, ◌++◌, length, map, take, true, false, None};
ghost use Rattle.hg_base.specs.declared.line.Line.{Line};
ghost use Rattle.hg_base.specs.declared.line.Reply.{Reply};
ghost use Rattle.hg_base.specs.declared.line.Totals.{Totals};
ghost use Rattle.hg_base.specs.declared.statement.Statement.{Statement};
ghost use Rattle.hg_base.specs.Lists.{Each};
ghost use Rattle.hg_base.specs.Script.{Script, replay};
ghost use Rattle.hg_base.specs.Sound.{all_said};
ghost use Rattle.hg_base.specs.Text.{Field};
ghost use Rattle.hg_script.specs.declared.code.Code.{Code};
ghost use Rattle.hg_script.specs.declared.judge.Judged.TheVariants as judged;
ghost use Rattle.hg_script.specs.Fields.{Fields};
ghost use Rattle.hg_script.specs.Judging.{IsJudged, Known, script_at};
ghost use Rattle.hg_script.specs.Lawful.{IsAccepted};
ghost use Rattle.hg_script.specs.Meaning.{nothing, refusal_of, script_of};
ghost use Rattle.hg_talk.specs.Framing.{Sent, Record, Long};
ghost use Rattle.hg_exact.specs.AnswerText.{AreAnswers, plain_answered};
ghost use Rattle.hg_exact.specs.Conversed.{Answered, Bad, Counted, Declared, IsAcceptance, Replied, TooLong, accepted, asks_totals, conversed, lines_of};
ghost use Rattle.hg_exact.specs.Due.{AreSoFar, IsOneMore, said_so_far};
ghost use Rattle.hg_exact.specs.Lawful.{AreAnswered};
ghost use Rattle.hg_exact.specs.Replayed.{plain, replayed};
ghost use Rattle.hg_exact.specs.SoFar.{made_so_far, totals_so_far, undone_so_far};
ghost use Rattle.hg_exact.specs.State.{start};

/// What a conversation answers to statements is what a replay of the records that broke no rule prints.
pub fn what_is_conversed_is_replayed()
    ensures { (sent : List Sent) → lines_of (conversed sent) ≡ replayed (accepted sent) }
{}

/// No answer depends on a later record: the first n answers are those to the first n records alone.
pub fn first_answers_are_of_first_records()
    ensures exact { (n : ℕ) (sent : List Sent) → conversed (take n sent) ≡ take n (conversed sent) }
    ensures texts { (row : List Field → List ℕ) (n : ℕ) (sent : List Sent)
        (texts : List (List ℕ)) → AreAnswers row sent texts →
        AreAnswers row (take n sent) (take n texts) }
{}

/// A script that breaks no rule, sent record by record: each record is accepted, and the statements are answered by the lines of the
/// script's replay.
pub fn scripts_are_conversed_as_replayed()
    ensures lines { (rows : List Fields) → refusal_of rows ≡ None →
        lines_of (conversed (map Record rows)) ≡ replayed (script_of rows) }
    ensures script { (rows : List Fields) → refusal_of rows ≡ None →
        accepted (map Record rows) ≡ script_of rows }
    ensures answers { (rows : List Fields) → refusal_of rows ≡ None →
        Each IsAcceptance (conversed (map Record rows)) }
{}

/// Totals that are asked for in the midst count the versions of the lines answered so far.
pub fn totals_are_of_the_lines_so_far()
    ensures { (sent : List Sent) (r : Fields) → asks_totals r ≡ true →
        conversed (sent ++ Record r ∷ []) ≡
        conversed sent ++ Counted (totals_so_far (said_so_far sent (conversed sent))) ∷ [] }
{}

/// How many versions were made and undone so far is a function of what is replayed, whatever reports say was removed and moved.
pub fn totals_so_far_are_replayed()
    ensures { (script : Script) (lines : List Line) → map plain lines ≡ replayed script →
        totals_so_far (all_said replay script lines) ≡
        totals_so_far (all_said replay script (replayed script)) }
{}

/// Each accepted statement has an answer, as the laws of replays ask. The next statement that breaks no rule fits the tables and may stand
/// after those that were accepted.
pub fn accepted_statements_are_answered()
    ensures answered { (sent : List Sent) (sessions : ℕ) →
        AreAnswered (start sessions) (accepted sent).records }
    ensures next { (sent : List Sent) (r : Fields) (session : ℕ) (statement : Statement)
        (new : Known) →
        IsJudged (suc (length sent)) (accepted sent) r (judged.Asked session statement) new →
        IsAccepted (accepted sent) session statement }
{}

/// Which answer is due next follows from how its record was judged, whatever the reply to a statement.
pub fn next_answer_is_due()
    ensures none { AreSoFar [] [] × (accepted [] ≡ nothing) }
    ensures long { (sent : List Sent) (answers : List Answered) → AreSoFar sent answers →
        IsOneMore sent answers Long (TooLong (suc (length sent))) (accepted sent) }
    ensures totals { (sent : List Sent) (answers : List Answered) (r : Fields) (t : Totals) →
        AreSoFar sent answers → asks_totals r ≡ true →
        t.made ≡ made_so_far (said_so_far sent answers) →
        t.undone ≡ undone_so_far (said_so_far sent answers) →
        IsOneMore sent answers (Record r) (Counted t) (accepted sent) }
    ensures bad { (sent : List Sent) (answers : List Answered) (r : Fields) (code : Code)
        (new : Known) → AreSoFar sent answers → asks_totals r ≡ false →
        IsJudged (suc (length sent)) (accepted sent) r (judged.Broken code) new →
        IsOneMore sent answers (Record r) (Bad (suc (length sent)) code) (accepted sent) }
    ensures declared { (sent : List Sent) (answers : List Answered) (r : Fields) (new : Known) →
        AreSoFar sent answers → asks_totals r ≡ false →
        IsJudged (suc (length sent)) (accepted sent) r judged.Declared new →
        IsOneMore sent answers (Record r) (Declared (suc (length sent)))
        (script_at (suc (length sent)) (accepted sent) r) }
    ensures replied { (sent : List Sent) (answers : List Answered) (r : Fields) (session : ℕ)
        (statement : Statement) (new : Known) (reply : Reply) →
        AreSoFar sent answers → asks_totals r ≡ false →
        IsJudged (suc (length sent)) (accepted sent) r (judged.Asked session statement) new →
        IsOneMore sent answers (Record r)
        (Replied (script_at (suc (length sent)) (accepted sent) r).tables
        (record { session = session; place = suc (length sent); reply = reply }))
        (script_at (suc (length sent)) (accepted sent) r) }
{}

/// Where each answer is the one that is due, and the lines are those that are replayed, the answers are what is conversed. What is
/// conversed is due.
pub fn due_answers_are_exact()
    ensures itself { (sent : List Sent) → AreSoFar sent (conversed sent) }
    ensures exact { (sent : List Sent) (answers : List Answered) → AreSoFar sent answers →
        map plain (lines_of answers) ≡ replayed (accepted sent) →
        map plain_answered answers ≡ conversed sent }
{}
