//! Laws of what sessions know, each the contract of a function with no body.

ghost use Rattle.std.specs.Prelude.{◌≡◌, ◌<◌, ℕ};
ghost use Rattle.hg_base.specs.declared.statement.Statement.{Statement};
ghost use Rattle.hg_base.specs.declared.line.Reply.{Reply};
ghost use Rattle.hg_base.specs.History.{Commit, History};
ghost use Rattle.hg_base.specs.Transcript.{Said};
ghost use Rattle.hg_core.specs.Answered.{StandsAt};
ghost use Rattle.hg_core.specs.Logs.{begans};
ghost use Rattle.hg_rule.specs.declared.view.Sizes.{Sizes};
ghost use Rattle.hg_rule.specs.declared.view.View.{View};
ghost use Rattle.hg_rule.specs.Facts.{StartsWith, IsHeard};
ghost use Rattle.hg_rule.specs.Rules.{IsBacked};
ghost use Rattle.hg_rule.specs.Views.{number, session};
ghost use Rattle.hg_group.specs.declared.receipt.Receipt.{Receipt};
ghost use Rattle.hg_group.specs.Order.{StandsIn};
ghost use Rattle.hg_session.specs.Finished.{AreAmong};
ghost use Rattle.hg_session.specs.Gains.{HasPlace};
ghost use Rattle.hg_session.specs.Replies.{Answers};
ghost use Rattle.hg_session.specs.Right.{IsRight};

/// Each commit has a place of its own. Receipts with one place, for commits in beginnings of one history, are for one commit.
/// So two commits of sessions, of which one view has seen what both have seen, are one transaction of one session.
pub fn places_differ()
    ensures histories { (h g k : History) (p q : Receipt) (c d : Commit) → StartsWith h g →
        StartsWith h k → StandsIn g p c → StandsIn k q d → p.place ≡ q.place → c ≡ d }
    ensures sessions { (z : Sizes) (mark : ℕ) (v a b c d : View) (p q : Receipt) →
        IsBacked z mark v → AreAmong b.sights v.sights → AreAmong d.sights v.sights →
        HasPlace a b p → HasPlace c d q → p.place ≡ q.place →
        (number a ≡ number c) × (begans (session a).log ≡ begans (session c).log) }
{}

/// A session's reply is right as soon as some state backs a view that has heard the session's log: the session's own view, or
/// that of whom it met. What the reply says holds over a history that goes on from all that the view has seen.
pub fn replies_are_right()
    ensures { (z : Sizes) (mark : ℕ) (v old new : View) (statement : Statement) (reply : Reply)
        (now : Said) → 0 < z.buckets → IsBacked z mark v →
        (a : Answers z old statement reply new) →
        IsHeard (number new) (session new).log v.sights →
        now.statement ≡ statement → now.reply ≡ reply →
        StandsAt (number old) (session old).log now →
        IsRight z.buckets v (number old) a.u (session old).log now }
{}
