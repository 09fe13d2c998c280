//! Seats move to one pass.

use hg_rule::{Board, Seats};
use std::test::Fail;

// A pass takes in all other seats, and then knows that the mark is 0.
#[test]
fn one_pass_has_everything(rt: HostRuntime) -> Result<(), Fail> {
    let (board, seats) = Board::new(rt.alloc(), 1, 1, 1, 1)?;
    let mut passes = seats.sessions.into_vec();
    let mut buckets = seats.buckets.into_vec();
    let (Some(session), Some(bucket)) = (passes.pop(), buckets.pop()) else {
        unreachable!()
    };
    let mut collector = seats.table;
    collector.join(&board, seats.group);
    collector.join(&board, seats.interval);
    session.finish(&board, &mut collector);
    board.join_bucket(&mut collector, bucket);
    board.join_commit(&mut collector, seats.commit);
    assert_eq!(rt; board.know_all(&mut collector), 0);
    Ok(())
}
