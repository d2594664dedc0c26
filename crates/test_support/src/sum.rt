// Of a list too long to be written whole: a sum in which each place counts.
ghost use Rattle.std.specs.Prelude.{◌≡◌, ℕ};
ghost use Rattle.test_support.specs.Sum.{one_more, sum_of, folded};

// A number of a list, and what it counts in the sum. One impl for each width, since a bound `Into<u64>` names no function that a clause could cite.
pub trait Number: Copy {
    ghost weight: { Self → ℕ };

    fn weight(self) -> u64
        ensures { result ≡ weight self };
}

impl Number for u8 {
    ghost weight = { λ x. x };

    fn weight(self) -> u64 {
        u64::from(self)
    }
}

impl Number for u16 {
    ghost weight = { λ x. x };

    fn weight(self) -> u64 {
        u64::from(self)
    }
}

impl Number for u32 {
    ghost weight = { λ x. x };

    fn weight(self) -> u64 {
        u64::from(self)
    }
}

impl Number for u64 {
    ghost weight = { λ x. x };

    fn weight(self) -> u64 {
        self
    }
}

impl Number for i32 {
    ghost weight = { folded };

    #[tactic(auto, using(crate::proofs::Folded::folded_below, crate::proofs::Folded::folded_above))]
    fn weight(self) -> u64 {
        let size = u64::from(self.unsigned_abs()) * 2;
        if self < 0 { size - 1 } else { size }
    }
}

// The sum with one number more.
fn more(sum: u64, number: u64) -> u64
    ensures { result ≡ one_more sum number }
{
    (sum % 4294967291 * 31 + number % 4294967291 + 1) % 4294967291
}

// The sum of a list.
pub fn of<T: Number>(list: &[T]) -> u64
    ensures { result ≡ sum_of T.weight list.now }
{
    list.iter().fold(0, |sum, x| more(sum, x.weight()))
}
