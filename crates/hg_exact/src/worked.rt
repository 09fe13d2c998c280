//! What is replayed of the worked examples.

ghost use Rattle.std.specs.Prelude.{◌≡◌, ℕ, List, [], map, None};
ghost use Rattle.hg_base.specs.Script.{replay};
ghost use Rattle.hg_base.specs.Sound.{IsSound};
ghost use Rattle.hg_decide.specs.Writing.{plain_row};
ghost use Rattle.hg_decide.specs.Examples.{empty, own_write, absent_key, two_puts, absent_deletion, scan_ends, undeclared, open_write, middle_of_a_chain, group_pass, equal_to_a_successor, moved, not_long, kept_deletion, kept_deletion_longer, cursor};
ghost use Rattle.hg_core.specs.declared.log.LogEntry.{LogEntry};
ghost use Rattle.hg_core.specs.Reading.{Follows};
ghost use Rattle.hg_headline.specs.Replayed.{HasReplayed};
ghost use Rattle.hg_headline.specs.Worked as conflict;
ghost use Rattle.hg_exact.specs.AnswerText.{AreAnswers};
ghost use Rattle.hg_exact.specs.Replayed.{plain, replayed};
ghost use Rattle.hg_exact.specs.Talk.{short_talk, short_texts};
ghost use Rattle.hg_core.specs.Shown.{ShowsFirsts};
ghost use Rattle.hg_exact.specs.Worked.{exchanged, one_group, older_newer, over_open};

/// The lines of each worked example without a collector's pass are those that are replayed.
pub fn examples_without_collectors_are_replayed()
    ensures empty { map plain empty.printed.lines ≡ replayed empty.script }
    ensures own_write { map plain own_write.printed.lines ≡ replayed own_write.script }
    ensures absent_key { map plain absent_key.printed.lines ≡ replayed absent_key.script }
    ensures two_puts { map plain two_puts.printed.lines ≡ replayed two_puts.script }
    ensures absent_deletion { map plain absent_deletion.printed.lines ≡
        replayed absent_deletion.script }
    ensures scan_ends { map plain scan_ends.printed.lines ≡ replayed scan_ends.script }
    ensures undeclared { map plain undeclared.printed.lines ≡ replayed undeclared.script }
    ensures open_write { map plain open_write.printed.lines ≡ replayed open_write.script }
{}

/// The lines of each worked example in which a collector makes a pass are those that are replayed, but for what its reports say was
/// removed and moved.
pub fn examples_with_collectors_are_replayed()
    ensures middle_of_a_chain { map plain middle_of_a_chain.printed.lines ≡
        replayed middle_of_a_chain.script }
    ensures group_pass { map plain group_pass.printed.lines ≡ replayed group_pass.script }
    ensures equal_to_a_successor { map plain equal_to_a_successor.printed.lines ≡
        replayed equal_to_a_successor.script }
    ensures moved { map plain moved.printed.lines ≡ replayed moved.script }
    ensures not_long { map plain not_long.printed.lines ≡ replayed not_long.script }
    ensures kept_deletion { map plain kept_deletion.printed.lines ≡ replayed kept_deletion.script }
    ensures kept_deletion_longer { map plain kept_deletion_longer.printed.lines ≡
        replayed kept_deletion_longer.script }
    ensures cursor { map plain cursor.printed.lines ≡ replayed cursor.script }
{}

/// Logs can show the first cause of each write: those of a replay with a conflict, a rollback and a collector's pass do.
pub fn first_causes_can_be_shown()
    ensures { (logs : ℕ → List LogEntry) ×
        HasReplayed 1 2 conflict.history logs 1 conflict.records conflict.lines ×
        Follows 1 ShowsFirsts (λ j. []) (λ j. None) conflict.records conflict.lines logs }
{}

/// A sound text need not be what is replayed: commit numbers may be exchanged, two commits may be in one group, the older one of two
/// newer commits may be named, and a write may go over another's open write that is rolled back later.
pub fn sound_texts_that_are_not_exact()
    ensures exchanged { IsSound replay exchanged.script exchanged.printed }
    ensures exchanged_is_not { map plain exchanged.printed.lines ≡ replayed exchanged.script → ⊥ }
    ensures one_group { IsSound replay one_group.script one_group.printed }
    ensures one_group_is_not { map plain one_group.printed.lines ≡ replayed one_group.script → ⊥ }
    ensures older_newer { IsSound replay older_newer.script older_newer.printed }
    ensures older_newer_is_not { map plain older_newer.printed.lines ≡
        replayed older_newer.script → ⊥ }
    ensures over_open { IsSound replay over_open.script over_open.printed }
    ensures over_open_is_not { map plain over_open.printed.lines ≡ replayed over_open.script → ⊥ }
{}

/// A short conversation, with the text of each answer.
pub fn short_talk_is_answered()
    ensures { AreAnswers plain_row short_talk short_texts }
{}
