//! The one word from which helpers draw the numbers of buckets.

ghost use Rattle.std.specs.Prelude.{◌≡◌};
ghost use Rattle.hg_rounds.specs.Word.{IsDrawn, fresh, hirer, hired, together, spent, draws, restarts};

use atomic_table::{Join, Play, Seat, Split, Table, TableRule};
use hg_base::NoMemory;
use std::alloc::Global;

/// How many numbers a seat may draw still, and those that it drew in this round, the last one first; what each seat drew that was joined
/// to it in this round, and the same of the round before. No code makes a value of this type: contracts speak of it.
pub struct Drawn {
    pub left: u64,
    pub numbers: [u64; 0],
    pub joined: [[u64; 0]; 0],
    pub before: [[u64; 0]; 0],
}

/// The rule of the word: the numbers below it are each in exactly one view.
pub struct Law;

impl TableRule<u8, Drawn, u8> for Law {
    ghost holds = { λ key. IsDrawn };

    ghost first = { λ key. fresh };
}

// A number is drawn.
pub(crate) struct Drawing;

impl Play<u8, Drawn> for Drawing {
    ghost then = { draws };
}

// The word is 0 again.
pub(crate) struct Restarting;

impl Play<u8, Drawn> for Restarting {
    ghost then = { restarts };
}

// A helper gets what it may draw.
pub(crate) struct Hiring;

impl Split<Drawn> for Hiring {
    ghost left = { hirer };

    ghost right = { λ v. hired };
}

// What a helper drew comes back.
pub(crate) struct Returning;

impl Join<Drawn> for Returning {
    ghost both = { together };

    ghost spent = { spent };
}

/// The right to draw.
#[derive(Drop)]
pub struct Drawer {
    pub(crate) seat: Seat<u8, Drawn>,
}

/// The word.
#[derive(Drop)]
pub struct Draws {
    pub(crate) table: Table<u8, Drawn, u8, Law, Global>,
    ghost words: { table.shared.table_id.words ≡ 1 },
}

impl Draws {
    ghost use Rattle.std.specs.Prelude.{◌+◌, ◌<◌, ◌≤◌, IfOk, length};
    ghost use Rattle.hg_rounds.specs.Word.{whole_quota, helper_quota, anew, Drew, AreAll};
    ghost use Rattle.hg_rounds.specs.Seats.{draws_id, drawn_by, IsDrawerOf};

    /// No number was drawn yet.
    pub(crate) fn new(alloc: Global) -> Result<(Draws, Drawer), NoMemory>
        ensures own { IfOk result (λ d. IsDrawerOf (draws_id d.0) d.1) }
        ensures fresh { IfOk result (λ d. drawn_by d.1 ≡ fresh) }
    {
        let (table, seat) = Table::of_words(alloc, &[0], &0)?;
        Ok((Draws { table }, Drawer { seat }))
    }

    /// The next number, which no other drawer gets.
    pub(crate) fn draw(&self, drawer: &mut Drawer) -> u64
        requires own { IsDrawerOf (draws_id self.now) drawer.old }
        requires left { 0 < (drawn_by drawer.old).left }
        ensures drew { Drew (drawn_by drawer.old) result (drawn_by drawer.new) }
        ensures own { IsDrawerOf (draws_id self.now) drawer.new }
    {
        self.table
            .shared
            .fetch_add::<Drawing>(&mut drawer.seat, 0, 1)
    }

    /// One drawer more, which may draw as often as a helper may.
    pub(crate) fn hire(&self, drawer: &mut Drawer) -> Drawer
        requires own { IsDrawerOf (draws_id self.now) drawer.old }
        requires left { helper_quota ≤ (drawn_by drawer.old).left }
        ensures left { drawn_by drawer.new ≡ hirer (drawn_by drawer.old) }
        ensures hired { drawn_by result ≡ hired }
        ensures own { IsDrawerOf (draws_id self.now) drawer.new
            × IsDrawerOf (draws_id self.now) result }
    {
        let seat = self.table.shared.split_seat::<Hiring>(&mut drawer.seat);
        Drawer { seat }
    }

    /// What the other drew comes before what this one did, and is kept apart besides.
    pub(crate) fn take_back(&self, drawer: &mut Drawer, other: Drawer)
        requires own { IsDrawerOf (draws_id self.now) drawer.old
            × IsDrawerOf (draws_id self.now) other }
        ensures both { drawn_by drawer.new ≡ together (drawn_by drawer.old) (drawn_by other) }
        ensures own { IsDrawerOf (draws_id self.now) drawer.new }
    {
        let Drawer { seat } = other;
        self.table
            .shared
            .join_seat::<Returning>(&mut drawer.seat, seat);
    }

    /// Sets the word back to 0. All drawers are joined to this one, so it has drawn all numbers below some number, each once.
    pub(crate) fn restart(&self, drawer: &mut Drawer)
        requires own { IsDrawerOf (draws_id self.now) drawer.old }
        requires all { (drawn_by drawer.old).left + length (drawn_by drawer.old).numbers ≡
            whole_quota }
        ensures all { AreAll (drawn_by drawer.old).numbers }
        ensures anew { drawn_by drawer.new ≡ anew (drawn_by drawer.old) }
        ensures own { IsDrawerOf (draws_id self.now) drawer.new }
    {
        self.table
            .shared
            .store::<Restarting>(&mut drawer.seat, 0, 0);
    }
}
