//! A reopening over nothing recorded.
ghost use Rattle.laws_reopening.specs.Adopting.{SettlesWithoutRecord};

/// States that if each server that is asked has told, the record makes no difference to what may be confirmed.
pub fn settles_without_record()
    ensures { SettlesWithoutRecord }
{}
