//! The plans that were begun, by their numbers.
ghost use Rattle.std.specs.Prelude.{◌≡◌, ◌<◌, ◌≤◌, ◌++◌, ◌∷◌, [], length, slice_index_or, slice_set};
ghost use Rattle.sm_plan_code.specs.declared.limits.TheConstants.{MOST_NUMBER};
ghost use Rattle.sm_machine.specs.Begun.{no_begun};
ghost use Rattle.sm_machine.specs.Returns.{held_in_plans, CanTakeBack, HasTakenBack};

use crate::begun::Begun;
use crate::plan_room::PlanRoom;
use crate::plan_tree::PlanTree;
use sm_reservation::Pool;
use std::marker::Model;

/// The plans that were begun, by their numbers. One more takes no memory but its own.
pub(crate) struct Plans {
    tree: PlanTree,
    count: usize,
}

impl Model for Plans {
    ghost use Rattle.std.specs.Prelude.{◌≡◌, List, length};
    ghost use Rattle.sm_machine.specs.Begun.{BegunModel};

    ghost Value = { List BegunModel };

    ghost view = { λ p. p.tree };

    ghost invariant = { λ p. p.count ≡ length p.tree };
}

impl Plans {
    /// Makes a list of no plan.
    pub fn new() -> Plans
        ensures { result ≡ [] }
    {
        Plans {
            tree: PlanTree::new(),
            count: 0,
        }
    }

    /// Returns the number of plans.
    pub fn len(&self) -> usize
        ensures { result ≡ length self.now }
    {
        self.count
    }

    /// Returns the plan with a number.
    pub fn at(&self, plan: usize) -> &Begun
        requires { plan < length self.now }
        ensures { result.now ≡ slice_index_or self.now plan no_begun }
    {
        self.tree.at(plan)
    }

    /// Puts another plan in the place of one, which comes back in its stead.
    pub fn swap(&mut self, plan: usize, other: &mut Begun)
        requires { plan < length self.old }
        ensures here { other.new ≡ slice_index_or self.old plan no_begun }
        ensures others { self.new ≡ slice_set self.old plan other.old }
    {
        self.tree.swap(plan, other);
    }

    /// Adds a plan, which gets the next number. Takes no memory.
    pub fn push(&mut self, plan: Begun, room: PlanRoom)
        requires { length self.old ≤ MOST_NUMBER }
        ensures { self.new ≡ self.old ++ plan ∷ [] }
    {
        self.tree.push(self.count, plan, room);
        self.count += 1;
    }

    /// Ends all plans: what their streams hold and their signals carry goes back to the pool. Takes no memory.
    pub fn close(self, pool: &mut Pool)
        requires { CanTakeBack pool.old (held_in_plans self) }
        ensures { HasTakenBack pool.old pool.new (held_in_plans self) }
    {
        let Plans { tree, count: _ } = self;
        tree.close(pool);
    }
}
