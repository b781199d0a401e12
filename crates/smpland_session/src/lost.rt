//! Servers that are said to be lost, as a reopening begins.
ghost use Rattle.std.specs.Prelude.{◌≡◌, find, is_none, map, option_map};
ghost use Rattle.sm_placement.specs.Setup.{server_named};
ghost use Rattle.smpland_session.specs.Lost.{first_unknown_server, numbered};

use crate::under_way::UnderWay;
use sm_placement::Config;
use smpland_state::JournalState;

/// The servers and shards that have numbers as a reopening begins, unless nothing is recorded.
fn numbered<'a>(
    opened: &'a Option<JournalState>,
    under_way: &'a Option<UnderWay>,
) -> Option<&'a Config>
    ensures { option_map (λ config. config.now) result ≡ numbered opened.now under_way.now }
{
    match (opened, under_way) {
        (Some(_), Some(current)) => Some(current.reopening.numbering()),
        (Some(opened), None) => Some(opened.driver.machine().config()),
        (None, _) => None,
    }
}

/// The first of these names that no server of a configuration has, if there is one.
fn first_unknown<'a>(config: &Config, names: &[&'a str]) -> Option<&'a str>
    ensures { option_map (λ name. name.now) result
        ≡ option_map (λ name. name.now) (find (λ name. is_none (server_named config.now name.now)) names.now) }
{
    let name = names
        .iter()
        .find(|name| config.server_named(name).is_none())?;
    Some(*name)
}

/// The first of these names that nobody knows as a reopening begins. Over nothing, each may be a server's.
pub(crate) fn unknown_lost<'a>(
    opened: &Option<JournalState>,
    under_way: &Option<UnderWay>,
    lost: &[&'a str],
) -> Option<&'a str>
    ensures { option_map (λ name. name.now) result
        ≡ first_unknown_server (numbered opened.now under_way.now) (map (λ name. name.now) lost.now) }
{
    match numbered(opened, under_way) {
        Some(config) => first_unknown(config, lost),
        None => None,
    }
}
