ghost use Rattle.banks.specs.Joined.{nothing};
ghost use Rattle.banks.specs.Lawful.{nothing_lawful};

use crate::answers::Answer;
use crate::bank::Bank;
use crate::causes::Cause;
use crate::operands::Operand;

/// The bank that knows no name.
#[derive(Clone, Copy, Debug, PartialEq, Eq)]
pub struct NoBank;

impl Bank for NoBank {
    ghost meaning = { λ _. nothing };

    ghost lawful = { λ _. nothing_lawful };

    fn knows(&mut self, _name: &[u8]) -> bool {
        false
    }

    fn apply(
        &mut self,
        _name: &[u8],
        _input: Operand,
        _argument: Option<Operand>,
        _answer: &mut [u8; 256],
    ) -> Result<Answer, Cause> {
        Err(Cause::UnknownName)
    }
}
