// Which loop of the outline each node of a run came from (origins), written after the paving.
#![tactic(auto)]

ghost use Rattle.std.specs.Prelude.{◌≡◌, ◌+◌, ◌<◌, ◌≤◌, length, replicate};
ghost use Rattle.std.proofs.lemmas.List.Edits.{sets};
ghost use Rattle.outline.specs.Outline.{outline_of};
ghost use Rattle.front.specs.Sampling.{loop_parts, sampled_count};
ghost use Rattle.front_boundary.specs.Counting.{even_up};
ghost use Rattle.laws.specs.Overlay.{overlay};
ghost use Rattle.run_origins.specs.Origins.{sampled_origins, origins_after};
ghost use Rattle.run_origins.specs.Writing.{push_count, push_at, Numberable, Sampleable};

use outline::Domain;

// The count is handed on, here and below: a struct of list and count would owe that its loan stays the same.
// The number of a loop's samples, from node n on. The answer is how many nodes have a number then.
fn number_loop(number: u16, s: &[f64], size: f64, origins: &mut [u16], n: usize) -> usize
    requires { (n + even_up (loop_parts size s.now) ≤ length origins.old) × (n + even_up (loop_parts size s.now) < 4294967296) }
    ensures { (result ≡ n + even_up (loop_parts size s.now))
        × (origins.new ≡ sets origins.old n (replicate (even_up (loop_parts size s.now)) number)) }
{
    let count = front_boundary::loop_nodes(s, size) as usize;
    origins[n..n + count].fill(number);
    n + count
}

// The numbers of the samples. The answer is how many there are.
fn number_samples(domain: Domain<'_>, size: f64, origins: &mut [u16]) -> usize
    requires { Sampleable (outline_of domain) size (length origins.old) }
    ensures { (result ≡ sampled_count (outline_of domain.entry) size)
        × (origins.new
        ≡ overlay (sampled_origins (outline_of domain.entry) size) origins.old) }
{
    let mut n = 0;
    for each in outline_loops::loops_of(domain) {
        n = number_loop(each.index as u16, each.points, size, origins, n);
    }
    n
}

// Where `id` is the next node, n, it takes the number of node a. The answer is how many numbers there are then.
fn push_origin(origins: &mut [u16], n: usize, a: u32, id: u32) -> usize
    requires { (a < n) × (push_count id n ≤ length origins.old) }
    ensures { (result ≡ push_count id n) × (origins.new ≡ push_at a id n origins.old) }
{
    if id as usize != n {
        return n;
    }
    origins[n] = origins[a as usize];
    n + 1
}

// The clauses take any count, also past the list's end.
// The numbers of a run's nodes, from the outline, the size and the first `count` of the quads answered. Places past the nodes aren't written.
pub fn number_nodes(domain: Domain<'_>, size: f64, quads: &[u32], count: usize, origins: &mut [u16])
    requires { Numberable (outline_of domain) size quads.now count (length origins.old) }
    ensures { origins.new
        ≡ overlay (origins_after (outline_of domain.entry) size quads.now count)
        origins.old }
{
    let mut n = number_samples(domain, size, origins);
    for k in 0..count {
        let q = front_lent_mesh::quad_at(quads, k);
        n = push_origin(origins, n, q.a, q.c);
        n = push_origin(origins, n, q.a, q.d);
    }
}
