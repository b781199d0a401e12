//! The laws.
ghost use Rattle.laws_service_data.specs.CutsTold.{CutIsToldAsMade, TakesOverWithAll};
ghost use Rattle.laws_service_data.specs.Epochs.{ExecutesOverReopenings, OpensAnew};
ghost use Rattle.laws_service_data.specs.LeadNumbers.{LeadNumbersRise};
ghost use Rattle.laws_service_data.specs.NumbersLater.{DutiesSuffice, NumbersAreLater, RulesSuffice, SettledSuffices};
ghost use Rattle.laws_service_data.specs.Reopened.{ExecutesAsSettled, InForceIsSettled, SettledLeads};
ghost use Rattle.laws_service_data.specs.Laws.{CutEndsWrites, ExecutesWithAll, JoinedOpens, ReachedCutHasAll, ServingLeads};

use laws_data::{acknowledged_writes_stay, enough_replicas_have_them};
use laws_network::{fleet_opens_in_force, opens_with_past};
use sm_server::leads_where_led;

/// States that whoever serves a shard leads its data, or is prepared to take over from the server that does.
pub fn serving_server_leads()
    ensures { ServingLeads }
{
    leads_where_led();
}

/// States that whoever executes a request of a shard has each write that was acknowledged before, in its whole copy,
/// if servers do with the data what orders and requests ask for.
pub fn executes_with_all()
    ensures { ExecutesWithAll }
{
    leads_where_led();
    acknowledged_writes_stay();
}

/// States that this goes on over reopenings, if none names the shard as lost, and whoever serves it in each fleet that
/// opens leads its data.
pub fn executes_over_reopenings()
    ensures { ExecutesOverReopenings }
{
    leads_where_led();
    acknowledged_writes_stay();
}

/// States that from the cut of an old owner on its list stays as it is, as long as it leads.
pub fn cut_ends_writes()
    ensures { CutEndsWrites }
{
    leads_where_led();
}

/// States that no other cut than that is told under the handover's number, as long as the old owner forwards.
pub fn cut_is_told_as_made()
    ensures { CutIsToldAsMade }
{}

/// States that whoever takes over by its agent, at the end of a copy that is a beginning of what the old owner has, has
/// all, and may take over, if positions are told as they are.
pub fn takes_over_with_all()
    ensures { TakesOverWithAll }
{
    leads_where_led();
}

/// States that whoever follows an old owner, and has as much as that had at its cut, has all, and may take over.
pub fn reached_cut_has_all()
    ensures { ReachedCutHasAll }
{
    leads_where_led();
}

/// States that a fleet opens with a shard's data wherever a machine can open on a placement whose primary is theirs.
pub fn joined_opens()
    ensures { JoinedOpens }
{}

/// States that after a reopening a fleet opens wherever a machine can open on a placement whose primary leads the data.
pub fn opens_anew()
    ensures { OpensAnew }
{
    leads_where_led();
}

/// States that if a reopening knows of a shard what is so, and what it settles is done with the data, whoever serves the
/// shard in the fleet that opens leads its data: the primary that is left, or, if the shard is not named as lost, the
/// one that is chosen.
pub fn settled_server_leads()
    ensures { SettledLeads }
{
    leads_where_led();
    enough_replicas_have_them();
}

/// States that over such reopenings whoever executes a request of a shard has each write that was acknowledged before.
pub fn executes_as_settled()
    ensures { ExecutesAsSettled }
{
    leads_where_led();
    acknowledged_writes_stay();
    enough_replicas_have_them();
}

/// States that once a settlement is in force, a fleet opens whose servers have the cells that are settled.
pub fn in_force_is_settled()
    ensures { InForceIsSettled }
{
    fleet_opens_in_force();
    opens_with_past();
}

/// States that of two orders by which a shard's primary ceases to be one, or a replica becomes one, the one that is
/// committed later has the higher number.
pub fn lead_numbers_rise()
    ensures { LeadNumbersRise }
{}

/// States that when an order is committed by which a shard's primary ceases to be one, or a replica becomes one, its
/// number is later than all that has made a view of the shard or ended a primary.
pub fn numbers_are_later()
    ensures { NumbersAreLater }
{}

/// States that servers that keep their duties, and all rules of data but that on orders' numbers, keep that, too.
pub fn duties_suffice()
    ensures { DutiesSuffice }
{}

/// States that this goes on over reopenings, if each fleet opens under a number that none of the shard's views and ends
/// is above.
pub fn rules_suffice()
    ensures { RulesSuffice }
{}

/// States that so it does over reopenings that settle the shard.
pub fn settled_suffices()
    ensures { SettledSuffices }
{
    leads_where_led();
    enough_replicas_have_them();
}
