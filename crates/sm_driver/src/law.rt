//! The law that commands determine what becomes of a driver.
ghost use Rattle.sm_driver.specs.Alike.{GoAlike, EachAlike};

/// States that drivers that are alike go on alike, whatever commands they take: so a replica, a replay and a test are
/// one thing.
pub fn drivers_go_alike()
    ensures { EachAlike GoAlike }
{}
