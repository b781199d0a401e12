//! Counts of the posts of each signal, and of the waits for it, among the instructions of a plan.
ghost use Rattle.std.specs.Prelude.{◌≡◌, ◌≤◌, ◌<◌, ◌+◌, ◌^◌, ℕ, All, IfOk, IfSome, IfNone, length, count_by, sum_by};
ghost use Rattle.std.specs.Prelude.{slice_index};
ghost use Rattle.sm_placement.specs.Sums.{bit};
ghost use Rattle.sm_plan_code.specs.Plan.{KnowsSignal, IsSmallStream};
ghost use Rattle.sm_verifier.specs.Counts.{IsRaised, AreCounts, IsOnceAt};
ghost use Rattle.sm_verifier.specs.Plan.{is_post, is_wait, posts, waits, AreUsedOnce, IsFirstMisused};
ghost use Rattle.sm_plan_code.specs.declared.limits.TheConstants.{MOST_STREAMS, MOST_SIGNALS};

use sm_plan_code::{Instr, Plan, Stream};
use std::alloc::{AllocError, Global};

/// The number of posts of each signal, and that of waits for it.
#[derive(Drop)]
struct Counts {
    posts: Vec<u32>,
    waits: Vec<u32>,
}

/// A signal that is not posted once and waited for once.
#[derive(Clone, Copy)]
pub(crate) struct Misuse {
    /// The signal's number.
    pub signal: u32,
    /// The number of its posts.
    pub posts: u32,
    /// The number of its waits.
    pub waits: u32,
}

/// Counts an instruction at the signal that it posts or waits for.
fn count_instr(instr: &Instr, posts: &mut [u32], waits: &mut [u32])
    requires known { KnowsSignal (length posts.old) instr.now }
    requires same { length waits.old ≡ length posts.old }
    requires few_posts { (k : ℕ) → slice_index posts.old k + 1 < 2 ^ 32 }
    requires few_waits { (k : ℕ) → slice_index waits.old k + 1 < 2 ^ 32 }
    ensures posts { IsRaised posts.old posts.new (λ k. bit (is_post k instr.now)) }
    ensures waits { IsRaised waits.old waits.new (λ k. bit (is_wait k instr.now)) }
{
    match *instr {
        Instr::Signal { signal } => posts[signal as usize] += 1,
        Instr::Wait { signal } => waits[signal as usize] += 1,
        _ => {}
    }
}

/// Counts the instructions of a code.
fn count_code(code: &[Instr], posts: &mut [u32], waits: &mut [u32])
    requires known { All (KnowsSignal (length posts.old)) code.now }
    requires same { length waits.old ≡ length posts.old }
    requires few_posts { (k : ℕ) → slice_index posts.old k + length code.now < 2 ^ 32 }
    requires few_waits { (k : ℕ) → slice_index waits.old k + length code.now < 2 ^ 32 }
    ensures posts { IsRaised posts.old posts.new (λ k. count_by (is_post k) code.now) }
    ensures waits { IsRaised waits.old waits.new (λ k. count_by (is_wait k) code.now) }
{
    for instr in code {
        count_instr(instr, posts, waits);
    }
}

/// Counts the instructions of streams.
fn count_streams(streams: &[Stream], posts: &mut [u32], waits: &mut [u32])
    requires known { All (λ stream. All (KnowsSignal (length posts.old)) stream.code) streams.now }
    requires small { All IsSmallStream streams.now }
    requires count { length streams.now ≤ MOST_STREAMS }
    requires same { length waits.old ≡ length posts.old }
    requires no_posts { (k : ℕ) → slice_index posts.old k ≡ 0 }
    requires no_waits { (k : ℕ) → slice_index waits.old k ≡ 0 }
    ensures posts { IsRaised posts.old posts.new
        (λ k. sum_by (λ stream. count_by (is_post k) stream.code) streams.now) }
    ensures waits { IsRaised waits.old waits.new
        (λ k. sum_by (λ stream. count_by (is_wait k) stream.code) streams.now) }
{
    for stream in streams {
        count_code(stream.code.as_slice(), posts, waits);
    }
}

/// Returns the counts of all signals of a plan.
fn counts_of(alloc: Global, plan: &Plan) -> Result<Counts, AllocError>
    ensures posts { IfOk result (λ counts. AreCounts (length plan.now.signals) (posts plan.now) counts.posts.items) }
    ensures waits { IfOk result (λ counts. AreCounts (length plan.now.signals) (waits plan.now) counts.waits.items) }
    ensures few { length plan.now.signals ≤ MOST_SIGNALS }
{
    let signals = plan.signals().len();
    let mut posts = vec![in alloc; 0; signals]?;
    let mut waits = vec![in alloc; 0; signals]?;
    count_streams(plan.streams(), &mut posts, &mut waits);
    Ok(Counts { posts, waits })
}

/// Returns the first place where one of the counts is not 1.
fn first_not_once(posts: &[u32], waits: &[u32]) -> Option<usize>
    requires { length waits.now ≡ length posts.now }
    ensures none { IfNone result ((k : ℕ) → k < length posts.now → IsOnceAt posts.now waits.now k) }
    ensures within { IfSome result (λ i. i < length posts.now) }
    ensures lower { IfSome result (λ i. (k : ℕ) → k < i → IsOnceAt posts.now waits.now k) }
    ensures here { IfSome result (λ i. ¬ IsOnceAt posts.now waits.now i) }
{
    for k in 0..posts.len() {
        if posts[k] != 1 || waits[k] != 1 {
            return Some(k);
        }
    }
    None
}

/// Returns the lowest signal that is not posted once and waited for once.
pub(crate) fn first_misuse(alloc: Global, plan: &Plan) -> Result<Option<Misuse>, AllocError>
    ensures none { IfOk result (λ found. IfNone found (AreUsedOnce plan.now (length plan.now.signals))) }
    ensures misuse { IfOk result (λ found. IfSome found (λ m. IsFirstMisused plan.now m.signal m.posts m.waits)) }
{
    let Counts { posts, waits } = counts_of(alloc, plan)?;
    let Some(signal) = first_not_once(&posts, &waits) else {
        return Ok(None);
    };
    Ok(Some(Misuse {
        signal: signal as u32,
        posts: posts[signal],
        waits: waits[signal],
    }))
}
