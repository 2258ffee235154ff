//! Binds names. Language Reference, "Identifiers and keywords".
ghost use Rattle.ir_text_types.specs.Outcomes.{Returns};
ghost use Rattle.ir_text_names.specs.BlockReading.{bind};

use crate::pack::ValueGroup;
use ir_text_tokens::fault::Fault;
use ir_text_tokens::names::ScopedNames;
use ir_text_tokens::refusal::TextRefusal;
use ir_text_types::error::ReadError;

/// Binds a new name. `left` is the number of bytes left at the name. Refuses a bound name with `Redefined`.
#[inline(always)]
#[tactic(auto, unfolding(crate::specs::BlockReading::bind))]
pub fn bind<'a>(
    names: &mut ScopedNames<'a, ValueGroup>,
    name: &'a [u8],
    pack: ValueGroup,
    left: usize,
) -> Result<(), ReadError>
    ensures { Returns (λ _. names.new) result (bind name.now pack names.old) }
{
    match names.bind_new(name, pack) {
        Ok(true) => Ok(()),
        Ok(false) => Err(ReadError::Refused(Fault {
            refusal: TextRefusal::Redefined,
            left,
        })),
        Err(_) => Err(ReadError::Memory),
    }
}
