//! How all passes and all sessions of an engine go to one pass.

ghost use Rattle.std.specs.Prelude.{◌≡◌, ℕ, length};
ghost use Rattle.hg_base.specs.Lists.{Each};
ghost use Rattle.hg_rule.specs.New.{EachFrom};
ghost use Rattle.hg_rule.specs.Reading.{passes_in};
ghost use Rattle.hg_rule.specs.Seats.{pass_view, IsPassOf};
ghost use Rattle.hg_rule.specs.Views.{number, pass as part};
ghost use Rattle.hg_session.specs.Engines.{engine_board_id, engine_sizes};
ghost use Rattle.hg_session.specs.Passing.{AreAlone, passes_with, journals_of, visits_of};
ghost use Rattle.hg_rule.specs.Facts.{IsHeard};
ghost use Rattle.hg_session.specs.Sessions.{seen_by};
ghost use Rattle.hg_session.specs.Ended.{logs_in, visits_in, HasAllPasses, IsEnded};
ghost use Rattle.hg_session.specs.OneRun.{journals_in};
ghost use Rattle.hg_session.specs.Finished.{logs_of, IsClosed, HasNoSession, HaveGone, AreAmong, AreDone, KeepsPass};

use crate::engine::Engine;
use crate::session::Session;
use hg_rule::CollectorPass;

/// The group and the interval collector's passes go to the table collector's.
pub fn join_all(
    engine: &Engine,
    pass: &mut CollectorPass,
    group: CollectorPass,
    interval: CollectorPass,
)
    requires alone { AreAlone engine.now (passes_with group pass.old interval) }
    ensures passes { HasAllPasses (pass_view pass.new) }
    ensures count { passes_in (pass_view pass.new).parts ≡ 3 }
    ensures none { HasNoSession (pass_view pass.new) }
    ensures visits { visits_in (pass_view pass.new) ≡
        visits_of (passes_with group pass.old interval) }
    ensures journals { journals_in (pass_view pass.new) ≡
        journals_of (passes_with group pass.old interval) }
    // its own part stays
    ensures stays { (number (pass_view pass.new) ≡ 1) ×
        (part (pass_view pass.new) ≡ part (pass_view pass.old)) }
    ensures seen { AreAmong (pass_view group).sights (pass_view pass.new).sights ×
        AreAmong (pass_view pass.old).sights (pass_view pass.new).sights ×
        AreAmong (pass_view interval).sights (pass_view pass.new).sights }
    // what the two did is known to be done
    ensures did { AreDone (pass_view group).events (pass_view pass.new).sights ×
        AreDone (pass_view interval).events (pass_view pass.new).sights }
    ensures events { (pass_view pass.new).events ≡ (pass_view pass.old).events }
    ensures own { IsPassOf (engine_board_id engine.now) pass.new }
{
    pass.join(engine.board(), group);
    pass.join(engine.board(), interval);
}

/// The first sessions of an engine go to a pass.
pub fn finish_some(engine: &Engine, sessions: Vec<Session>, pass: &mut CollectorPass)
    requires sessions { EachFrom (IsClosed engine.now) 1 sessions.items }
    requires own { IsPassOf (engine_board_id engine.now) pass.old }
    ensures went { HaveGone sessions.items (pass_view pass.old) (pass_view pass.new) }
    ensures own { IsPassOf (engine_board_id engine.now) pass.new }
{
    for session in sessions {
        session.finish(engine, pass);
    }
}

/// All sessions of an engine go to a pass that all other passes were joined to, which then knows what they had seen and done.
pub fn finish_all(engine: &Engine, sessions: Vec<Session>, pass: &mut CollectorPass)
    requires sessions { EachFrom (IsClosed engine.now) 1 sessions.items }
    requires all { length sessions.items ≡ (engine_sizes engine.now).sessions }
    requires own { IsPassOf (engine_board_id engine.now) pass.old }
    // all other passes were joined to it, and no session yet
    requires joined { HasAllPasses (pass_view pass.old) × HasNoSession (pass_view pass.old) }
    ensures ended { IsEnded (engine_sizes engine.now) (pass_view pass.new) }
    ensures logs { logs_in (pass_view pass.new) ≡ logs_of sessions.items }
    // each session's whole log was heard
    ensures heard { (j : ℕ) → IsHeard j (logs_of sessions.items j) (pass_view pass.new).sights }
    // the pass has seen what each session had seen
    ensures seen { Each (λ s. AreAmong (seen_by s) (pass_view pass.new).sights) sessions.items }
    ensures kept { KeepsPass (pass_view pass.old) (pass_view pass.new) }
    ensures own { IsPassOf (engine_board_id engine.now) pass.new }
{
    finish_some(engine, sessions, pass);
}
