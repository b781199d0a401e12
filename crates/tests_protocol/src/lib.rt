//! Worked plays of the protocol, computed by its definitions, in a crate of their own: nothing here is part of the
//! product.
#![tactic(auto)]
