//! A transaction on its way to the session that commits it.

use crate::open_tx::OpenTx;
use hg_rule::TxSeat;

/// An open transaction with its session's part of the state.
#[derive(Drop)]
pub struct Handed {
    pub tx: OpenTx,
    pub seat: TxSeat,
}
