//! The laws.
ghost use Rattle.laws_driver.specs.Driven.{EachDriven};
ghost use Rattle.laws_session.specs.Turns.{ChangesAreCommands, ChangesAreTurns};

use laws_driver::answers_have_entries;

/// States that what a line makes of the driver of an open journal is what a command of the driver does.
pub fn changes_are_commands()
    ensures { ChangesAreCommands }
{
    answers_have_entries();
}

/// States that if a line tells the truth, it is a turn of the driver and its fleet, so all laws of the fleet go on to
/// hold.
pub fn changes_are_turns()
    ensures { EachDriven ChangesAreTurns }
{
    changes_are_commands();
}
