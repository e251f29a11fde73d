ghost use Rattle.std.specs.Prelude.{◌≡◌};
ghost use Rattle.banks.specs.Joined.{joined};
ghost use Rattle.banks.specs.Laws.{JoiningIsAssociative, NothingIsAUnit};
ghost use Rattle.banks.specs.Lawful.{joined_lawful};

use crate::answers::Answer;
use crate::bank::Bank;
use crate::causes::Cause;
use crate::operands::Operand;

/// Two banks side by side: the left one has the names that it knows, the right one the rest.
#[derive(Drop, Debug, PartialEq, Eq)]
pub struct Joined<L, R> {
    left: L,
    right: R,
}

/// Puts two banks side by side.
pub fn join<L, R>(left: L, right: R) -> Joined<L, R>
    ensures left { result.left ≡ left }
    ensures right { result.right ≡ right }
    ensures associative { JoiningIsAssociative }
    ensures unit { NothingIsAUnit }
{
    Joined { left, right }
}

impl<L: Bank, R: Bank> Bank for Joined<L, R> {
    ghost meaning = { λ b. joined (L.Bank.meaning b.left) (R.Bank.meaning b.right) };

    ghost lawful = { λ b. joined_lawful (L.Bank.meaning b.left) (R.Bank.meaning b.right) (L.Bank.lawful b.left) (R.Bank.lawful b.right) };

    fn knows(&mut self, name: &[u8]) -> bool {
        self.left.knows(name) || self.right.knows(name)
    }

    fn apply(
        &mut self,
        name: &[u8],
        input: Operand,
        argument: Option<Operand>,
        answer: &mut [u8; 256],
    ) -> Result<Answer, Cause> {
        if self.left.knows(name) {
            self.left.apply(name, input, argument, answer)
        } else {
            self.right.apply(name, input, argument, answer)
        }
    }
}
