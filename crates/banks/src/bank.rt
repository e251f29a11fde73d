ghost use Rattle.std.specs.Prelude.{◌≡◌};
ghost use Rattle.banks.specs.Meaning.{Meaning, Lawful};
ghost use Rattle.banks.specs.Operands.{datum};
ghost use Rattle.banks.specs.Answers.{told, leaves};
ghost use Rattle.std.specs.Option.{option_map};

use crate::answers::Answer;
use crate::causes::Cause;
use crate::operands::Operand;

/// A bank of filters. It may keep notes: what it means stays.
pub trait Bank {
    ghost meaning: { Self → Meaning };

    ghost lawful: { (b : Self) → Lawful (meaning b) };

    /// Whether the bank knows the name.
    fn knows(&mut self, name: &[u8]) -> bool
        ensures answer { result ≡ (meaning self.old).known name.now }
        ensures same { meaning self.new ≡ meaning self.old };

    /// What the function of that name gives. A text is left in `answer` and then zeros, a number leaves zeros, and a cause nothing.
    // The caller's whole buffer, with the length of the text beside it: what stands behind the text is promised too.
    fn apply(
        &mut self,
        name: &[u8],
        input: Operand,
        argument: Option<Operand>,
        answer: &mut [u8; 256],
    ) -> Result<Answer, Cause>
        ensures answer { result ≡ told ((meaning self.old).gives name.now (datum input.entry) (option_map datum argument.entry)) }
        ensures buffer { answer.new ≡ leaves ((meaning self.old).gives name.now (datum input.entry) (option_map datum argument.entry)) answer.old }
        ensures same { meaning self.new ≡ meaning self.old };
}
