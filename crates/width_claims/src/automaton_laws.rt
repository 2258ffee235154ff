//! The law of the machine.
ghost use Rattle.width_claims.specs.AllWidths.{AcceptanceIsSound};

/// A truth that the machine accepts bit by bit holds at all widths.
pub fn acceptance_is_sound()
    ensures { AcceptanceIsSound }
{}
