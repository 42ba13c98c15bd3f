// The snapshot of a pass (src/alt_crossfield.rs): the links as they are when the pass begins. A node that is off the front stays off it, so a pass goes over
// such nodes in stretches; where one ends stands in the list of tries, in the places of the node at which it begins, which has no try.
#![tactic(auto)]

ghost use Rattle.std.specs.Prelude.{◌≡◌, ◌≤◌, ◌<◌, length};
ghost use Rattle.paving.specs.Advance.{copied};
ghost use Rattle.paving_snapshots.specs.Stretches.{stretched, node_after, stretches_joined, Stretches, FewerTries};

use front::OFF;

// Of a list lent, as in `paving_retries`: a method would owe that its loan stays the same. By index: LIMITS.md, 1.
// Node a has no try, and a stretch goes from it up to `end`, where the node has its places.
#[tactic(auto, unfolding(crate::specs::Stretches::stretched))]
pub fn set_stretch(tried: &mut [u32], a: u32, end: u32)
    ensures { tried.new ≡ stretched tried.old a end }
{
    let i = a as usize;
    if i < tried.len() / 3 {
        tried[3 * i] = OFF;
        tried[3 * i + 1] = end;
    }
}

// The node with which to go on after a: the next of the n, or the end of the stretch that begins at a.
pub fn node_after(tried: &[u32], a: u32, n: u32) -> u32
    requires { a < n }
    ensures { result ≡ node_after tried.now a n }
{
    let i = a as usize;
    if i < tried.len() / 3 && tried[3 * i] == OFF {
        let end = tried[3 * i + 1].min(n);
        (a + 1).max(end)
    } else {
        a + 1
    }
}

// Copies the links of the first n nodes. Stretches are made of those off the front, and those that there are aren't copied again.
pub fn copy_links(next: &[u32], snapshot: &mut [u32], tried: &mut [u32], n: u32)
    requires { (n ≤ length next.now) × (n ≤ length snapshot.old) × Stretches tried.old n next.now snapshot.old }
    ensures { (snapshot.new ≡ copied n next.now snapshot.old)
        × Stretches tried.new n next.now snapshot.new × FewerTries tried.old tried.new
        × (tried.new ≡ stretches_joined next.now n tried.old) }
{
    let mut from: u32 = 0;
    let mut i: u32 = 0;
    // The next node is where a stretch ends, so no range has it.
    while i < n {
        let link = next[i as usize];
        snapshot[i as usize] = link;
        if link == OFF {
            i = node_after(tried, i, n);
            set_stretch(tried, from, i);
        } else {
            i += 1;
            from = i;
        }
    }
}
