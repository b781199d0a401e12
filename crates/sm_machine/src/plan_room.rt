//! The room that a plan takes among the plans that were begun.
ghost use Rattle.std.specs.Prelude.{◌≡◌, [], IfOk};

use crate::plan_tree::PlanTree;
use std::alloc::{AllocError, AllocFailed, Global};
use std::marker::Model;

/// The room that a plan takes in the tree.
pub(crate) struct PlanRoom {
    odd: Box<PlanTree>,
    even: Box<PlanTree>,
}

impl Model for PlanRoom {
    ghost use Rattle.std.specs.Prelude.{◌≡◌, []};

    ghost Value = { Unit {0} };

    ghost view = { λ p. tt };

    ghost invariant = { λ p. (p.odd.value ≡ []) × (p.even.value ≡ []) };
}

/// Makes an empty tree in a box.
fn side(alloc: Global) -> Result<Box<PlanTree>, AllocError>
    ensures { IfOk result (λ side. side.value ≡ []) }
{
    match Box::new(alloc, PlanTree::new()) {
        Ok(side) => Ok(side),
        Err(AllocFailed { value }) => {
            value.destroy_empty();
            Err(AllocError)
        }
    }
}

impl PlanRoom {
    /// Makes the room of a plan.
    pub fn new(alloc: Global) -> Result<PlanRoom, AllocError> {
        let odd = side(alloc)?;
        match side(alloc) {
            Ok(even) => Ok(PlanRoom { odd, even }),
            Err(error) => {
                Box::into_inner(odd).destroy_empty();
                Err(error)
            }
        }
    }

    /// Gives the room up.
    pub fn discard(self) {
        let PlanRoom { odd, even } = self;
        Box::into_inner(odd).destroy_empty();
        Box::into_inner(even).destroy_empty();
    }

    /// Returns the two empty trees below a plan.
    pub fn into_sides(self) -> (Box<PlanTree>, Box<PlanTree>)
        ensures odd { result.0.value ≡ [] }
        ensures even { result.1.value ≡ [] }
    {
        let PlanRoom { odd, even } = self;
        (odd, even)
    }
}
