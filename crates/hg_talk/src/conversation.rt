//! The loop of a conversation: read a piece, answer each record that ends in it, write the answers.

ghost use Rattle.std.specs.Prelude.{◌≡◌, ◌≤◌, ◌⊎◌, ◌∷◌, [], List, ℕ, true, IfErr, OnErr, OnOk};
ghost use Rattle.hg_base.specs.Faults.{Rose};
ghost use Rattle.hg_talk.specs.Events.{Event};
ghost use Rattle.hg_talk.specs.Framer.{Kept};
ghost use Rattle.hg_talk.specs.Going.{IsGoing, is_own};
ghost use Rattle.hg_talk.specs.Talking.{Exchange, HasFault, IsOver, IsStopped, LeavesHost};

use crate::client::Client;
use crate::framer::Framer;
use crate::host::Host;
use crate::trouble::Trouble;
use crate::writing::write_all;
use hg_base::Failed;
use std::alloc::Global;
use std::sync::Wait;
use std::thread::Threads;

// At most how many bytes one call of a client is asked for. Where so many bytes of answers wait, they are written.
const PIECE: usize = 65_536;

// Takes a byte, and answers the record that ends with it, if one does.
fn take_byte<R: Threads + Wait + Sync, H: Host>(
    rt: &R,
    host: &mut H,
    framer: &mut Framer,
    text: &mut Vec<u8>,
    byte: u8,
) -> Result<(), Trouble>
    requires ready { H.ready host.old }
    ensures taken { OnOk result ((log : List Event) (rest : List ℕ) →
        IsGoing log (H.heard host.old) framer.old (byte ∷ rest) text.old.items →
        IsGoing log (H.heard host.new) framer.new rest text.new.items) }
    ensures ready { OnOk result (H.ready host.new) }
    ensures kept { OnErr result (text.new.items ≡ text.old.items) }
    ensures unheard { OnErr result (H.heard host.new ≡ H.heard host.old) }
    ensures own { IfErr result (λ why. is_own why ≡ true) }
    ensures host { IfErr result (LeavesHost (H.ready host.new) (H.stopped host.new)) }
{
    if framer.push(byte)? {
        host.answer(rt, framer.heard(), text)?;
        framer.clear();
    }
    Ok(())
}

// Writes the answers that wait.
fn flush<C: Client>(client: &mut C, text: &mut Vec<u8>) -> Result<(), Trouble>
    ensures done { OnOk result (text.new.items ≡ []) }
    ensures wrote { (heard : List Exchange) (kept : Kept) (rest : List ℕ) →
        IsGoing (C.log client.old) heard kept rest text.old.items →
        OnOk result (IsGoing (C.log client.new) heard kept rest []) }
    ensures stopped { (heard : List Exchange) (kept : Kept) (rest : List ℕ) →
        IsGoing (C.log client.old) heard kept rest text.old.items →
        IfErr result (IsStopped (C.log client.new) heard) }
    ensures write { IfErr result (λ why. why ≡ Trouble.Write) }
    ensures fault { IfErr result
        (HasFault (C.log client.new) (C.faults client.old) (C.faults client.new)) }
    ensures later { C.faults client.old ≤ C.faults client.new }
{
    match write_all(client, text) {
        Ok(()) => {
            text.clear();
            Ok(())
        }
        Err(Failed) => Err(Trouble::Write),
    }
}

// It ends before the client does: writes the answers that wait.
fn stop<C: Client>(client: &mut C, waiting: &mut Vec<u8>, why: Trouble) -> Trouble
    requires own { is_own why ≡ true }
    ensures stopped { (heard : List Exchange) (kept : Kept) (rest : List ℕ) →
        IsGoing (C.log client.old) heard kept rest waiting.old.items →
        IsStopped (C.log client.new) heard result }
    ensures same { (result ≡ why) ⊎ (result ≡ Trouble.Write) }
    ensures fault { HasFault (C.log client.new) (C.faults client.old) (C.faults client.new) result }
    ensures later { C.faults client.old ≤ C.faults client.new }
{
    match flush(client, waiting) {
        Ok(()) => why,
        Err(trouble) => trouble,
    }
}

// Writes the answers that wait, if they are many.
fn relieve<C: Client>(client: &mut C, text: &mut Vec<u8>) -> Result<(), Trouble>
    ensures wrote { (heard : List Exchange) (kept : Kept) (rest : List ℕ) →
        IsGoing (C.log client.old) heard kept rest text.old.items →
        OnOk result (IsGoing (C.log client.new) heard kept rest text.new.items) }
    ensures stopped { (heard : List Exchange) (kept : Kept) (rest : List ℕ) →
        IsGoing (C.log client.old) heard kept rest text.old.items →
        IfErr result (IsStopped (C.log client.new) heard) }
    ensures write { IfErr result (λ why. why ≡ Trouble.Write) }
    ensures fault { IfErr result
        (HasFault (C.log client.new) (C.faults client.old) (C.faults client.new)) }
    ensures later { C.faults client.old ≤ C.faults client.new }
{
    if text.len() < PIECE {
        return Ok(());
    }
    flush(client, text)
}

// Takes a piece, and answers each record that ends in it.
fn take_piece<R: Threads + Wait + Sync, C: Client, H: Host>(
    rt: &R,
    client: &mut C,
    host: &mut H,
    framer: &mut Framer,
    text: &mut Vec<u8>,
    piece: &[u8],
) -> Result<(), Trouble>
    requires going { IsGoing (C.log client.old) (H.heard host.old) framer.old piece.now text.old.items }
    requires ready { H.ready host.old }
    ensures talking { OnOk result
        (IsGoing (C.log client.new) (H.heard host.new) framer.new [] text.new.items) }
    ensures ready { OnOk result (H.ready host.new) }
    ensures stopped { IfErr result (IsStopped (C.log client.new) (H.heard host.new)) }
    ensures fault { IfErr result
        (HasFault (C.log client.new) (C.faults client.old) (C.faults client.new)) }
    ensures host { IfErr result (LeavesHost (H.ready host.new) (H.stopped host.new)) }
    ensures later { C.faults client.old ≤ C.faults client.new }
{
    for byte in piece {
        match take_byte(rt, host, framer, text, *byte) {
            Ok(()) => {}
            Err(why) => return Err(stop(client, text, why)),
        }
        match relieve(client, text) {
            Ok(()) => {}
            Err(trouble) => return Err(trouble),
        }
    }
    Ok(())
}

// Reads a piece, and answers each record that ends in it. The answer is whether more may come.
fn take_next<R: Threads + Wait + Sync, C: Client, H: Host>(
    rt: &R,
    client: &mut C,
    host: &mut H,
    framer: &mut Framer,
    text: &mut Vec<u8>,
    piece: &mut [u8],
) -> Result<bool, Trouble>
    requires going { IsGoing (C.log client.old) (H.heard host.old) framer.old [] text.old.items }
    requires ready { H.ready host.old }
    ensures talking { OnOk result
        (IsGoing (C.log client.new) (H.heard host.new) framer.new [] text.new.items) }
    ensures ready { OnOk result (H.ready host.new) }
    ensures stopped { IfErr result (IsStopped (C.log client.new) (H.heard host.new)) }
    ensures fault { IfErr result
        (HasFault (C.log client.new) (C.faults client.old) (C.faults client.new)) }
    ensures host { IfErr result (LeavesHost (H.ready host.new) (H.stopped host.new)) }
    ensures later { C.faults client.old ≤ C.faults client.new }
{
    match flush(client, text) {
        Ok(()) => {}
        Err(trouble) => return Err(trouble),
    }
    let count = match client.read(piece) {
        Ok(count) => count,
        Err(Failed) => return Err(Trouble::Read),
    };
    match take_piece(rt, client, host, framer, text, &piece[..count]) {
        Ok(()) => Ok(count > 0),
        Err(trouble) => Err(trouble),
    }
}

// Answers the record that the end of the input ends, if one has begun.
fn take_last<R: Threads + Wait + Sync, C: Client, H: Host>(
    rt: &R,
    client: &mut C,
    host: &mut H,
    framer: &mut Framer,
    text: &mut Vec<u8>,
) -> Result<(), Trouble>
    requires going { IsGoing (C.log client.old) (H.heard host.old) framer.old [] text.old.items }
    requires ready { H.ready host.old }
    ensures over { OnOk result
        (IsOver (C.log client.new) (H.heard host.new) text.new.items) }
    ensures ready { OnOk result (H.ready host.new) }
    ensures stopped { IfErr result (IsStopped (C.log client.new) (H.heard host.new)) }
    ensures fault { IfErr result
        (HasFault (C.log client.new) (C.faults client.old) (C.faults client.new)) }
    ensures host { IfErr result (LeavesHost (H.ready host.new) (H.stopped host.new)) }
    ensures later { C.faults client.old ≤ C.faults client.new }
{
    match end_record(rt, host, framer, text) {
        Ok(()) => Ok(()),
        Err(why) => Err(stop(client, text, why)),
    }
}

fn end_record<R: Threads + Wait + Sync, H: Host>(
    rt: &R,
    host: &mut H,
    framer: &mut Framer,
    text: &mut Vec<u8>,
) -> Result<(), Trouble>
    requires ready { H.ready host.old }
    ensures over { OnOk result ((log : List Event) →
        IsGoing log (H.heard host.old) framer.old [] text.old.items →
        IsOver log (H.heard host.new) text.new.items) }
    ensures ready { OnOk result (H.ready host.new) }
    ensures kept { OnErr result (text.new.items ≡ text.old.items) }
    ensures unheard { OnErr result (H.heard host.new ≡ H.heard host.old) }
    ensures own { IfErr result (λ why. is_own why ≡ true) }
    ensures host { IfErr result (LeavesHost (H.ready host.new) (H.stopped host.new)) }
{
    if framer.finish()? {
        host.answer(rt, framer.heard(), text)?;
    }
    Ok(())
}

/// Answers a client until nothing more comes from it. The last answers are left in `text`.
pub fn converse<R: Threads + Wait + Sync, C: Client, H: Host>(
    rt: &R,
    alloc: Global,
    client: &mut C,
    host: &mut H,
    text: &mut Vec<u8>,
) -> Result<(), Trouble>
    requires new { C.log client.old ≡ [] }
    requires unheard { H.heard host.old ≡ [] }
    requires ready { H.ready host.old }
    requires none { text.old.items ≡ [] }
    // The client ended it: all that it sent was heard.
    ensures over { OnOk result
        (IsOver (C.log client.new) (H.heard host.new) text.new.items) }
    ensures ready { OnOk result (H.ready host.new) }
    // Otherwise the first of it was, and the cause is told.
    ensures stopped { IfErr result (IsStopped (C.log client.new) (H.heard host.new)) }
    ensures fault { IfErr result
        (HasFault (C.log client.new) (C.faults client.old) (C.faults client.new)) }
    ensures host { IfErr result (LeavesHost (H.ready host.new) (H.stopped host.new)) }
    ensures later { C.faults client.old ≤ C.faults client.new }
{
    let mut framer = Framer::new(alloc);
    let mut piece = [0; PIECE];
    for _ in rt.forever() {
        if !take_next(rt, client, host, &mut framer, text, &mut piece)? {
            return take_last(rt, client, host, &mut framer, text);
        }
    }
    unreachable!()
}
