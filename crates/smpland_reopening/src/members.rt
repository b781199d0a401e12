//! The parties of a reopening.
ghost use Rattle.std.specs.Prelude.{◌≡◌, IfOk, length, map};
ghost use Rattle.std.specs.List.{list_any, range_with_len};
ghost use Rattle.std.specs.Str.{bytes_eq};
ghost use Rattle.smpland_reopening.specs.Members.{first_lost, is_named_among, membership_of, membership_at};

use sm_placement::Config;
use sm_reopening::Membership;
use sm_server::ServerId;
use std::alloc::{AllocError, Global};

/// Returns whether one of texts is a name.
fn is_one_of(name: &str, names: &[&str]) -> bool
    ensures { result ≡ list_any (λ n. bytes_eq n.now name.now) names.now }
{
    names.iter().any(|other| *other == name)
}

/// Returns whether a name is among names.
#[tactic(auto, using(crate::proofs::Lists::among_texts))]
fn is_among(name: &str, names: &[&str]) -> bool
    ensures { result ≡ is_named_among name.now (map (λ n. n.now) names.now) }
{
    is_one_of(name, names)
}

/// Returns what becomes of the server of a name.
fn membership(document: &Config, lost: &[&str], name: &str) -> Membership
    ensures { result ≡ membership_of document.now (map (λ n. n.now) lost.now) name.now }
{
    if is_among(name, lost) {
        return Membership::Lost;
    }
    match document.server_named(name) {
        Some(_) => Membership::Member,
        None => Membership::LeftOut,
    }
}

/// Returns what becomes of each server that has a number.
#[tactic(auto, using(crate::proofs::Lists::pushed_more))]
pub(crate) fn members_of(
    alloc: Global,
    numbering: &Config,
    document: &Config,
    lost: &[&str],
) -> Result<Vec<Membership>, AllocError>
    ensures { IfOk result (λ members. members.items
        ≡ map (membership_at numbering.now document.now (map (λ n. n.now) lost.now))
        (range_with_len 0 (length numbering.now.servers))) }
{
    let mut members = Vec::new(alloc);
    for number in 0..numbering.server_count() {
        let server = numbering.server(ServerId::new(number));
        members.push(membership(document, lost, &server.name))?;
    }
    Ok(members)
}

/// The first server of a document that is said to be lost.
#[tactic(auto, using(sm_placement::proofs::Searches::find_range_more))]
pub(crate) fn first_lost(document: &Config, lost: &[&str]) -> Option<ServerId>
    ensures { result ≡ first_lost document.now (map (λ n. n.now) lost.now) }
{
    for number in 0..document.server_count() {
        let server = ServerId::new(number);
        if is_among(&document.server(server).name, lost) {
            return Some(server);
        }
    }
    None
}
