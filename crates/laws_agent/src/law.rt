//! The laws.
ghost use Rattle.laws_agent.specs.ClusterLaws.{AgentsAreSimulated, ClustersAreReached, ClustersOpen, EachCluster};
ghost use Rattle.laws_agent.specs.ClusterLaws.{HaveSettlement, OneAgentExecutes, StandsForReached};

use laws_network::{
    agents_do_so, executes_safely, fleet_can_reopen, opens_with_past, refuses_none, shown_executes,
};

/// States that servers that keep bases, slots and what is at work, and handle the messages of a reopening as agents do,
/// are simulated by the model of reopenings, message by message.
pub fn agents_are_simulated()
    ensures { AgentsAreSimulated }
{
    agents_do_so();
    refuses_none();
}

/// States that the servers of a fleet stand for a state of the model over which a reopening may begin, wherever the
/// fleet leads.
pub fn clusters_open()
    ensures { ClustersOpen }
{
    fleet_can_reopen();
}

/// States that over each placement on which a controller can open there are such servers, over which a reopening has
/// begun.
pub fn clusters_are_reached()
    ensures { ClustersAreReached }
{}

/// States that wherever messages lead such servers, they stand for a state to which events of the model lead.
pub fn stand_for_reached()
    ensures { EachCluster StandsForReached }
{
    agents_are_simulated();
    fleet_can_reopen();
}

/// States that at most one such server executes requests of a shard, whatever comes while they are fenced and settled,
/// and that the map shows it, or one that forwards to it.
pub fn one_agent_executes()
    ensures { EachCluster OneAgentExecutes }
{
    agents_are_simulated();
    stand_for_reached();
    executes_safely();
    shown_executes();
}

/// States that once all have taken a settlement, each such server that has its slots has what was settled.
pub fn have_settlement()
    ensures { EachCluster HaveSettlement }
{
    stand_for_reached();
    opens_with_past();
}
