//! Laws of the rule's plans.
ghost use Rattle.sm_planner.specs.Laws.{PlansAreOrderly, PlansAreUsable, PlansAreUsableAt, PlansMove, PlansSpread};
ghost use Rattle.sm_planner.specs.Laws.{RuleAnswersOnce, DrainsEmpty, DrainsHavePlans};

/// States that the plan of moves in any order keeps its budget, uses each signal once, and has an order of its steps: a
/// signal goes from a move to one that is placed later.
pub fn plans_are_orderly()
    ensures { PlansAreOrderly }
{}

/// States that the plan of moves is sound, and admitted at the placement with its pool, if the rule refuses none of
/// them. So it is at each state that events lead to.
pub fn plans_are_usable()
    ensures scene { PlansAreUsable }
    ensures reached { PlansAreUsableAt }
{}

/// States that at the end of the plan each moved replica stands at its new server as it stood at the old one, and all
/// other cells are as before. If the published map named a server of a shard whose primary was moved, it names the new
/// server; otherwise it says what it said before.
pub fn plans_move()
    ensures { PlansMove }
{}

/// States that at the end of the plan the replicas of each moved shard lie in as many regions as its spread asks for,
/// or in more.
pub fn plans_spread()
    ensures { PlansSpread }
{}

/// States that the rule has one plan for any moves, or one reason why not.
pub fn rule_answers_once()
    ensures { RuleAnswersOnce }
{}

/// States that at the end of the plan of a drain the server has nothing, and each shard that it had is spread; and the
/// plan is sound and admitted.
pub fn drains_empty()
    ensures { DrainsEmpty }
{}

/// States that the rule has a plan for the moves of a drain, if the server may be emptied and each of its shards has a
/// target.
pub fn drains_have_plans()
    ensures { DrainsHavePlans }
{}
