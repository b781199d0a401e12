//! Plans in a tree, by their numbers: each comes with the room that it takes, so that one more takes no memory.
ghost use Rattle.std.specs.Prelude.{◌≡◌, ◌<◌, ◌++◌, ◌∷◌, [], length, slice_index_or, slice_set};
ghost use Rattle.sm_machine.specs.Begun.{no_begun};
ghost use Rattle.sm_machine.specs.Returns.{held_in_plans, CanTakeBack, HasTakenBack};

use crate::begun::Begun;
use crate::plan_room::PlanRoom;
use sm_reservation::Pool;
use std::marker::Model;
use std::mem;

/// Plans by their numbers. One is found in a walk as long as its number has binary digits.
#[cycle(plan_tree)]
pub(crate) struct PlanTree {
    node: Node,
}

/// No plan; or the first one, with those at the odd places and those at the other even ones, each in their order.
#[cycle(plan_tree)]
enum Node {
    Empty,
    Fork(Begun, Box<PlanTree>, Box<PlanTree>),
}

impl Model for PlanTree {
    ghost use Rattle.std.specs.Prelude.{List, length};
    ghost use Rattle.sm_machine.specs.Begun.{BegunModel};

    ghost Value = { List BegunModel };

    ghost use Rattle.sm_machine.specs.Plans.{plans_in, IsEven};

    ghost view = { λ t. plans_in t.node };

    ghost invariant = { λ t. IsEven t.node };

    ghost size = { length };

    ghost use Rattle.sm_machine.specs.PlansFall.{depth_le-length-plans};

    ghost size_decreases = { λ t h. depth_le-length-plans t.node };
}

impl PlanTree {
    /// Makes a tree of no plan.
    pub fn new() -> PlanTree
        ensures { result ≡ [] }
    {
        PlanTree { node: Node::Empty }
    }

    /// Ends a tree without plans.
    pub fn destroy_empty(self)
        requires { self ≡ [] }
    {
        let PlanTree { node } = self;
        match node {
            Node::Empty => {}
            Node::Fork(_plan, _odd, _even) => unreachable!(),
        }
    }

    /// Returns the plan with a number.
    pub fn at(&self, place: usize) -> &Begun
        requires { place < length self.now }
        ensures { result.now ≡ slice_index_or self.now place no_begun }
    {
        match &self.node {
            Node::Empty => unreachable!(),
            Node::Fork(plan, odd, even) => {
                if place == 0 {
                    plan
                } else if place % 2 == 1 {
                    odd.at(place / 2)
                } else {
                    even.at(place / 2 - 1)
                }
            }
        }
    }

    /// Puts another plan in the place of one, which comes back.
    pub fn swap(&mut self, place: usize, other: &mut Begun)
        requires { place < length self.old }
        ensures here { other.new ≡ slice_index_or self.old place no_begun }
        ensures others { self.new ≡ slice_set self.old place other.old }
    {
        match &mut self.node {
            Node::Empty => unreachable!(),
            Node::Fork(plan, odd, even) => {
                if place == 0 {
                    mem::swap(plan, other);
                } else if place % 2 == 1 {
                    odd.swap(place / 2, other);
                } else {
                    even.swap(place / 2 - 1, other);
                }
            }
        }
    }

    /// Adds a plan, which gets the next number.
    pub fn push(&mut self, count: usize, plan: Begun, room: PlanRoom)
        requires { count ≡ length self.old }
        ensures { self.new ≡ self.old ++ plan ∷ [] }
    {
        match &mut self.node {
            Node::Empty => {
                let (odd, even) = room.into_sides();
                let node = Node::Fork(plan, odd, even);
                mem::replace(self, PlanTree { node }).destroy_empty();
            }
            Node::Fork(_, odd, even) => {
                if count % 2 == 1 {
                    odd.push(count / 2, plan, room);
                } else {
                    even.push(count / 2 - 1, plan, room);
                }
            }
        }
    }

    /// Ends all plans: what their streams hold and their signals carry goes back to the pool. Takes no memory.
    pub fn close(self, pool: &mut Pool)
        requires { CanTakeBack pool.old (held_in_plans self) }
        ensures { HasTakenBack pool.old pool.new (held_in_plans self) }
    {
        let PlanTree { node } = self;
        match node {
            Node::Empty => {}
            Node::Fork(plan, odd, even) => {
                plan.close(pool);
                Box::into_inner(odd).close(pool);
                Box::into_inner(even).close(pool);
            }
        }
    }
}
