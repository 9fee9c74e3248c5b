ghost use Rattle.std.specs.Prelude.{◌≡◌, ℕ, ◌<◌, length, All, slice_index_or};
ghost use Rattle.std.specs.Thread.{IsSync};
ghost use Rattle.atomic_table.specs.Seated.{TableId};
ghost use Rattle.asc_work.specs.Posts.{HasServed, IsManned, IsReady};
ghost use Rattle.asc_work.specs.declared.post.Post.{Post};

use crate::post::Post;
use asc_cache::Insert;
use asc_outside::Gate;
use asc_traj::Halt;
use std::sync::Wait;
use std::thread::{Threads, for_each_mut, join_mut};

/// Runs the workers beside a walk, and answers what the walk answers. The walk has to end with the halt of all workers,
/// and to wake them then: this returns only once each has stopped.
///
/// Each worker runs in a thread of its own where one can be made. Where none can, the workers run once the walk has
/// ended, and then stop at once.
pub(crate) fn beside<
    R: Threads + Wait + Sync,
    W: Insert + Drop + Send,
    H: Halt + Drop + Send,
    G: Gate + Sync,
    A,
    F: FnMut() -> A,
>(rt: &R, posts: &mut [Post<W, H>], gate: &G, walk: &mut F) -> A
    requires some { 0 < length posts.old }
    requires ready { All (λ p. IsReady p) posts.old }
    requires walk { F.pre walk.old }
    ensures served { (i : ℕ) (d : Post W H) → i < length posts.old
        → HasServed H.count W.identity (slice_index_or posts.old i d) (slice_index_or posts.new i d) }
    ensures count { length posts.new ≡ length posts.old }
    ensures manned { (queue : TableId) → All (IsManned queue) posts.old → All (IsManned queue) posts.new }
    ensures walk { F.step walk.old result walk.new }
{
    let ((), answer) = join_mut(
        rt,
        &mut ||
            requires { IsSync R.row × (0 < length posts.now) × All (λ p. IsReady p) posts.now }
            ensures { (i : ℕ) (d : Post W H) → i < length posts.entry.now
                → HasServed H.count W.identity (slice_index_or posts.entry.now i d) (slice_index_or posts.exit.now i d) }
        { work_all(rt, posts, gate) },
        walk,
    );
    answer
}

// Runs each worker in a thread of its own, where one can be made.
fn work_all<
    R: Threads + Wait + Sync,
    W: Insert + Drop + Send,
    H: Halt + Drop + Send,
    G: Gate + Sync,
>(rt: &R, posts: &mut [Post<W, H>], gate: &G)
    requires some { 0 < length posts.old }
    requires ready { All (λ p. IsReady p) posts.old }
    ensures served { (i : ℕ) (d : Post W H) → i < length posts.old
        → HasServed H.count W.identity (slice_index_or posts.old i d) (slice_index_or posts.new i d) }
{
    let threads = posts.len();
    let work = |_: usize, post: &mut Post<W, H>|
        requires { IsReady post.now }
        ensures { HasServed H.count W.identity post.entry.now post.exit.now }
    { post.work(rt, gate) };
    for_each_mut(rt, posts, threads, &work);
}
