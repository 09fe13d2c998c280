//! One line with the transaction that it belongs to, read from what its session's last line left.

ghost use Rattle.std.specs.Prelude.{◌≡◌, ℕ, ◌+◌, ◌<◌, ◌≤◌, ◌^◌, ◌∷◌, List, Option, Some, None, option_map, false, IfSome, IfOk, OnErr, OnOk};
ghost use Rattle.hg_base.specs.declared.scope.Scope.TheVariants.{All};
ghost use Rattle.std.specs.BTreeMap.{IsUnchanged};
ghost use Rattle.hg_base.specs.Transcript as script;
ghost use Rattle.hg_base.specs.Transcript.{last_of, rest_in, said_after};
ghost use Rattle.hg_known.specs.Lines.{said_of, rest_of, number_of, without_rest, left_by, left_rest, AreLasts, AreRests, HasRest, IsRest, OpensKnown, ReachTo};

use hg_base::{Answer, NoMemory, Record, Reply, Row, Scope, Statement, TableId};
use std::collections::BTreeMap;

/// The keys that a cursor has left: those of a table from `next` to `high`. `next` is `None` if it has passed the greatest key of
/// 64 bits.
#[derive(Clone, Copy)]
pub struct Rest {
    pub table: TableId,
    pub next: Option<u64>,
    pub high: u64,
}

impl Rest {
    /// The last key that a fetch of at most `most` rows passes when it returns these.
    pub fn passed(self, most: u32, rows: &[(u64, Row)]) -> u64
        ensures { result ≡ script.passed most self.high rows.now }
    {
        let count = rows.len();
        if count < most as usize {
            return self.high;
        }
        if count == 0 {
            return self.high;
        }
        rows[count - 1].0
    }
}

/// What the cursor of a line's transaction has left after the line.
fn rest_after(now: &Said) -> Option<Rest>
    ensures { option_map rest_of result ≡
        script.rest_after now.now.statement now.now.reply.now.answer
        (option_map rest_of now.now.rest) }
{
    match &now.statement {
        Statement::Begin(_) => None,
        Statement::CursorOpen { table, low, high } => Some(Rest {
            table: *table,
            next: Some(*low),
            high: *high,
        }),
        Statement::Fetch(most) => match &now.reply.answer {
            Answer::Rows(rows) => {
                let rest = now.rest?;
                Some(Rest {
                    next: rest.passed(*most, rows.as_slice()).checked_add(1),
                    ..rest
                })
            }
            _ => now.rest,
        },
        _ => now.rest,
    }
}

/// A record with its reply, the transaction that it belongs to, and what that transaction's cursor had left before it. A record that
/// is a transaction of its own (`alone`) declares the statement's one table, and `scope` says nothing.
#[derive(Drop)]
pub struct Said<'a> {
    pub session: u32,
    pub place: u64,
    pub transaction: u64,
    pub at: u64,
    pub scope: Scope,
    pub alone: bool,
    pub statement: Statement,
    pub rest: Option<Rest>,
    pub reply: &'a Reply,
}

/// The transaction of a session's last line that belongs to one: over, or open at a snapshot, with what its cursor has left.
#[derive(Clone, Copy)]
pub enum Last {
    Over(u64),
    Open {
        transaction: u64,
        at: u64,
        scope: Scope,
        rest: Option<Rest>,
    },
}

impl Last {
    pub fn transaction(self) -> u64
        ensures { result ≡ number_of self }
    {
        match self {
            Last::Over(transaction) => transaction,
            Last::Open { transaction, .. } => transaction,
        }
    }
}

fn begun(reply: &Reply) -> u64
    ensures { result ≡ script.begun reply.now }
{
    match &reply.answer {
        Answer::Begun(at) => *at,
        _ => 0,
    }
}

pub fn is_end(statement: &Statement) -> bool
    ensures { result ≡ script.is_end statement.now }
{
    matches!(
        statement,
        Statement::Commit | Statement::Rollback | Statement::CursorClose
    )
}

/// Whether a line ends its transaction.
pub fn ends(said: &Said) -> bool
    ensures { result ≡ script.ends (said_of said.now) }
{
    said.alone || is_end(&said.statement)
}

// The number of a session's next transaction.
fn next_after(last: Option<Last>) -> u64
    requires { IfSome last (λ l. number_of l + 1 < 2 ^ 64) }
    ensures next { (o : Option script.Said) → option_map left_by o ≡ option_map without_rest last →
        result ≡ script.next_after o }
    ensures reach { IfSome last (λ l. result ≡ number_of l + 1) }
    ensures first { last ≡ None → result ≡ 1 }
{
    match last {
        Some(last) => last.transaction() + 1,
        None => 1,
    }
}

// A record and its reply, in no transaction.
fn outside<'a>(asked: Record, reply: &'a Reply) -> Said<'a>
    ensures said { said_of result ≡ record {
      session = asked.session;
      place = asked.place;
      transaction = 0;
      at = 0;
      scope = All;
      alone = false;
      statement = asked.statement;
      reply = reply.entry.now;
    } }
    ensures rest { result.rest ≡ None }
{
    Said {
        session: asked.session,
        place: asked.place,
        transaction: 0,
        at: 0,
        scope: Scope::All,
        alone: false,
        statement: asked.statement,
        rest: None,
        reply,
    }
}

// The line of a record, after the session's last.
fn stand<'a>(last: Option<Last>, asked: Record, reply: &'a Reply) -> Said<'a>
    requires room { IfSome last (λ l. number_of l + 1 < 2 ^ 64) }
    requires known { OpensKnown asked.statement }
    ensures said { (o : Option script.Said) → option_map left_by o ≡ option_map without_rest last →
        said_of result ≡ said_after o asked reply.entry.now asked.statement }
    ensures rest { (earlier : List script.Said) →
        option_map without_rest last ≡ option_map left_by (last_of asked.session earlier) →
        IsRest asked.session earlier last →
        option_map rest_of result.rest ≡ rest_in asked.session result.transaction earlier }
    ensures session { result.session ≡ asked.session }
    ensures reach { IfSome last (λ l. result.transaction ≤ number_of l + 1) }
    ensures first { last ≡ None → result.transaction ≤ 1 }
{
    let next = next_after(last);
    let bare = outside(asked, reply);
    match bare.statement {
        Statement::Begin(scope) => Said {
            transaction: next,
            at: begun(reply),
            scope,
            ..bare
        },
        Statement::CursorOpen { table, .. } => Said {
            transaction: next,
            at: begun(reply),
            scope: Scope::only(table),
            ..bare
        },
        Statement::Gc(_) => bare,
        _ => match last {
            Some(
                Last::Open {
                    transaction,
                    at,
                    scope,
                    rest,
                },
            ) => Said {
                transaction,
                at,
                scope,
                rest,
                ..bare
            },
            _ => Said {
                transaction: next,
                at: reply.at.unwrap_or(0),
                alone: true,
                ..bare
            },
        },
    }
}

// What a line leaves to its session's next.
fn left(now: &Said) -> Last
    ensures left { without_rest result ≡ left_by (said_of now.now) }
    ensures rest { script.ends (said_of now.now) ≡ false →
        left_rest (Some result) ≡
        script.rest_after now.now.statement now.now.reply.now.answer
        (option_map rest_of now.now.rest) }
{
    if ends(now) {
        return Last::Over(now.transaction);
    }
    Last::Open {
        transaction: now.transaction,
        at: now.at,
        scope: now.scope,
        rest: rest_after(now),
    }
}

/// Keeps what a line leaves to its session's next.
pub fn keep(lasts: &mut BTreeMap<u32, Last>, now: &Said) -> Result<(), NoMemory>
    ensures { OnOk result ((earlier : List script.Said) → AreLasts lasts.old earlier →
        AreLasts lasts.new (said_of now.now ∷ earlier)) }
{
    if now.transaction == 0 {
        return Ok(());
    }
    lasts.insert(now.session, left(now))?;
    Ok(())
}

/// Reads the line of a record, and keeps what it leaves to the session's next.
pub fn read_line<'a>(
    lasts: &mut BTreeMap<u32, Last>,
    asked: Record,
    reply: &'a Reply,
) -> Result<Said<'a>, NoMemory>
    requires reach { ReachTo (2 ^ 63) lasts.old }
    requires known { OpensKnown asked.statement }
    ensures said { IfOk result (λ now.
        (earlier : List script.Said) → AreLasts lasts.old earlier →
        said_of now ≡ script.said earlier asked reply.entry.now) }
    ensures rest { IfOk result (λ now.
        (earlier : List script.Said) → AreLasts lasts.old earlier →
        AreRests lasts.old earlier → HasRest earlier now) }
    ensures lasts { IfOk result (λ now.
        (earlier : List script.Said) → AreLasts lasts.old earlier →
        AreLasts lasts.new (said_of now ∷ earlier)) }
    ensures rests { IfOk result (λ now.
        (earlier : List script.Said) → AreLasts lasts.old earlier →
        AreRests lasts.old earlier → AreRests lasts.new (said_of now ∷ earlier)) }
    ensures reach { OnOk result ((n : ℕ) → ReachTo n lasts.old → ReachTo (n + 1) lasts.new) }
    ensures refused { OnErr result (IsUnchanged lasts.old lasts.new) }
{
    let last = lasts.get(&asked.session).copied();
    let now = stand(last, asked, reply);
    if now.transaction == 0 {
        return Ok(now);
    }
    lasts.insert(now.session, left(&now))?;
    Ok(now)
}
