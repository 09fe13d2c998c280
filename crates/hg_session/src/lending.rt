//! All other sessions hand their parts to one session's pass, and take them back.
//!
//!     pass of session 1                            passes of 2 and 3
//!     [ session 1 ]                                [ session 2 ]   [ session 3 ]
//!     [ session 1 | lent 2 | lent 3 ]              [ away 2 ]      [ away 3 ]        lend_all
//!     [ session 1 ]                                [ session 2 ]   [ session 3 ]     return_all
//!
//! While one pass has all parts, it knows all logs as they are.

ghost use Rattle.std.specs.Prelude.{◌≡◌, ℕ, ◌+◌, ◌<◌, ◌∷◌, ◌++◌, [], length, map, get_or, false};
ghost use Rattle.hg_rule.specs.Facts.{StartsWith};
ghost use Rattle.hg_rule.specs.Holding.{beyond};
ghost use Rattle.hg_rule.specs.Seats.{session_view, IsSessionOf, IsAwayOf};
ghost use Rattle.hg_rule.specs.Views.{number, session as part, others};
ghost use Rattle.hg_rule.specs.declared.view.Part.TheVariants.{OfSession};
ghost use Rattle.hg_session.specs.declared.session.Session.{Session};
ghost use Rattle.hg_session.specs.Engines.{engine_board_id, engine_sizes};
ghost use Rattle.hg_session.specs.Finished.{AreAmong};
ghost use Rattle.hg_session.specs.Lent.{lent_of, HasLent, HasBack};
ghost use Rattle.hg_session.specs.Sessions.{IsOf, pass_of, view_of, number_of, seen_by};

use crate::engine::Engine;
use crate::session::Session;
use hg_rule::SessionPass;

// A session hands its part to the pass, which has seen then what the session had seen.
fn lend(engine: &Engine, session: &mut Session, holder: &mut SessionPass)
    requires own { IsOf engine.now session.old }
    requires holder { IsSessionOf (engine_board_id engine.now) (engine_sizes engine.now) holder.old }
    ensures lent { HasLent engine.now session.old session.new }
    ensures parts { (session_view holder.new).parts ≡
        (session_view holder.old).parts ++ lent_of session.old ∷ [] }
    ensures kept { StartsWith (session_view holder.new).sights (session_view holder.old).sights }
    ensures heard { AreAmong (seen_by session.old) (session_view holder.new).sights }
    ensures held { IsSessionOf (engine_board_id engine.now) (engine_sizes engine.now) holder.new }
{
    let (_, seat) = engine.board().hand_over(&mut session.pass);
    engine.board().receive(holder, seat);
}

// A session takes back its part, which follows the pass's own.
fn take_back(engine: &Engine, session: &mut Session, who: u32, holder: &mut SessionPass)
    requires away { IsAwayOf (engine_board_id engine.now) (engine_sizes engine.now)
        (pass_of session.old) }
    requires number { number_of session.old ≡ who }
    requires alone { others (view_of session.old) ≡ [] }
    requires unstamped { (part (view_of session.old)).stamped ≡ false }
    requires next { others (session_view holder.old) ≡
        lent_of session.old ∷ beyond (session_view holder.old) }
    requires holder { IsSessionOf (engine_board_id engine.now) (engine_sizes engine.now) holder.old }
    ensures back { HasBack engine.now session.old session.new }
    ensures parts { (session_view holder.new).parts ≡
        OfSession (number (session_view holder.old)) (part (session_view holder.old)) ∷
        beyond (session_view holder.old) }
    ensures kept { (session_view holder.new).sights ≡ (session_view holder.old).sights }
    ensures held { IsSessionOf (engine_board_id engine.now) (engine_sizes engine.now) holder.new }
{
    let seat = engine.board().hand_back(holder, who);
    engine.board().resume(&mut session.pass, seat);
}

/// Each of the sessions hands its part to the pass.
pub(crate) fn lend_all(engine: &Engine, list: &mut [Session], holder: &mut SessionPass)
    requires own { (d : Session) (k : ℕ) → k < length list.old →
        IsOf engine.now (get_or list.old k d) }
    requires holder { IsSessionOf (engine_board_id engine.now) (engine_sizes engine.now) holder.old }
    ensures many { length list.new ≡ length list.old }
    ensures lent { (d : Session) (k : ℕ) → k < length list.old →
        HasLent engine.now (get_or list.old k d) (get_or list.new k d) }
    ensures parts { (session_view holder.new).parts ≡
        (session_view holder.old).parts ++ map lent_of list.old }
    ensures kept { StartsWith (session_view holder.new).sights (session_view holder.old).sights }
    ensures heard { (d : Session) (k : ℕ) → k < length list.old →
        AreAmong (seen_by (get_or list.old k d)) (session_view holder.new).sights }
    ensures held { IsSessionOf (engine_board_id engine.now) (engine_sizes engine.now) holder.new }
{
    for k in 0..list.len() {
        lend(engine, &mut list[k], holder);
    }
}

/// Each of them takes its part back. They are all sessions but the first, by ascending number.
pub(crate) fn return_all(engine: &Engine, list: &mut [Session], holder: &mut SessionPass)
    requires away { (d : Session) (k : ℕ) → k < length list.old →
        IsAwayOf (engine_board_id engine.now) (engine_sizes engine.now)
        (pass_of (get_or list.old k d)) }
    requires numbers { (d : Session) (k : ℕ) → k < length list.old →
        number_of (get_or list.old k d) ≡ k + 2 }
    requires alone { (d : Session) (k : ℕ) → k < length list.old →
        others (view_of (get_or list.old k d)) ≡ [] }
    requires unstamped { (d : Session) (k : ℕ) → k < length list.old →
        (part (view_of (get_or list.old k d))).stamped ≡ false }
    requires parts { others (session_view holder.old) ≡ map lent_of list.old }
    requires holder { IsSessionOf (engine_board_id engine.now) (engine_sizes engine.now) holder.old }
    ensures many { length list.new ≡ length list.old }
    ensures back { (d : Session) (k : ℕ) → k < length list.old →
        HasBack engine.now (get_or list.old k d) (get_or list.new k d) }
    ensures parts { (session_view holder.new).parts ≡
        OfSession (number (session_view holder.old)) (part (session_view holder.old)) ∷ [] }
    ensures kept { (session_view holder.new).sights ≡ (session_view holder.old).sights }
    ensures held { IsSessionOf (engine_board_id engine.now) (engine_sizes engine.now) holder.new }
{
    for k in 0..list.len() {
        take_back(engine, &mut list[k], k as u32 + 2, holder);
    }
}
