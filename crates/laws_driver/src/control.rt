//! The driver as a controller.
ghost use Rattle.laws_driver.specs.ControlLaws.{AnswersHaveEntries, CommandsAreEntries};

/// States that if a driver is a controller, what a command makes of the driver is what the command's entries make of
/// the controller.
pub fn commands_are_entries()
    ensures { CommandsAreEntries }
{}

/// States that each answer that the driver takes has an entry: of the order, or of the publication, that the stream
/// stands before.
pub fn answers_have_entries()
    ensures { AnswersHaveEntries }
{}
