//! The two words of a session in which all others see what it reads: its register, and the mask of its tables.

ghost use Rattle.std.specs.Prelude.{◌≡◌, ◌<◌, ◌^◌};
ghost use Rattle.hg_core.specs.Words.{number_of, mask_of, word_of, register_of};

use hg_base::Scope;

/// What a register shows. A session that takes a snapshot shows first that it enters, and then the snapshot.
#[derive(Clone, Copy, Debug)]
pub enum Register {
    Idle,
    /// The mark that the session loaded before it entered.
    Entering(u64),
    Live {
        number: u64,
        /// Whether the session declared its tables. Its mask word has them.
        declared: bool,
        /// Whether it holds back its declared tables alone.
        moved: bool,
    },
}

/// The lowest bit of the number.
const NUMBER: u32 = 20;

const ENTERING: u64 = 1;

const LIVE: u64 = 2;

const DECLARED: u64 = 4;

const MOVED: u64 = 8;

impl Register {
    /// The register as a word.
    ///
    ///     bits 63 .. 20   19 .. 4   3       2          1, 0
    ///          number     0         moved   declared   0 idle, 1 entering, 2 live
    ///
    /// An idle register is 0.
    pub fn word(self) -> u64
        requires { number_of self < 2 ^ 44 }
        ensures { result ≡ word_of self }
    {
        match self {
            Register::Idle => 0,
            Register::Entering(number) => (number << NUMBER) + ENTERING,
            Register::Live {
                number,
                declared,
                moved,
            } => {
                let declared = if declared { DECLARED } else { 0 };
                let moved = if moved { MOVED } else { 0 };
                (number << NUMBER) + moved + declared + LIVE
            }
        }
    }

    /// The register that a word shows.
    pub fn from_word(word: u64) -> Register
        ensures { result ≡ register_of word }
    {
        let number = word >> NUMBER;
        match word % 4 {
            ENTERING => Register::Entering(number),
            LIVE => Register::Live {
                number,
                declared: word / DECLARED % 2 == 1,
                moved: word / MOVED % 2 == 1,
            },
            _ => Register::Idle,
        }
    }
}

/// The mask word of a scope. Bit t stands for table t, and all are set where no tables are declared.
pub fn mask_word(scope: Scope) -> u64
    ensures { result ≡ mask_of scope }
{
    match scope {
        Scope::All => u64::MAX,
        Scope::Declared(mask) => mask,
    }
}
