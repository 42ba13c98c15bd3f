// The sides of a lent mesh's quads as sorted numbers in lent scratch: which are there, and which are there twice.
#![tactic(auto)]

ghost use Rattle.std.specs.Prelude.{◌≡◌, ◌+◌, ◌*◌, ◌≤◌, ◌<◌, ◌++◌, ◌∷◌, [], ◌&&◌, eqb, ltb, get_or, map, take, length};
ghost use Rattle.front.specs.Lent.{mesh_state};
ghost use Rattle.books.specs.Book.{edge, quad_edges};
ghost use Rattle.books.specs.Net.{count_edge};
ghost use Rattle.cover_sides.specs.Sides.{sides_of, quad_of, side_key, SidesFit, SidesListed};

use front::Mesh;
use front_lent_mesh::QuadIds;

// ---- the numbers

// The number of the side from u to v.
fn key(u: u32, v: u32) -> u64
    ensures { result ≡ side_key (edge u v) }
{
    u64::from(u) * 4294967296 + u64::from(v)
}

// The number of the side from u to v stands at n.
fn push(keys: &mut [u64], n: usize, u: u32, v: u32)
    requires { n < length keys.old }
    ensures next { take (n + 1) keys.new ≡ take n keys.old ++ side_key (edge u v) ∷ [] }
    ensures long { length keys.new ≡ length keys.old }
{
    keys[n] = key(u, v);
}

// Those of quad k's sides stand from 4k on.
fn push_quad(keys: &mut [u64], k: usize, q: QuadIds)
    requires { 4 * (k + 1) ≤ length keys.old }
    ensures next { take (4 * (k + 1)) keys.new ≡ take (4 * k) keys.old ++ map side_key (quad_edges (quad_of q)) }
    ensures long { length keys.new ≡ length keys.old }
{
    push(keys, 4 * k, q.a, q.b);
    push(keys, 4 * k + 1, q.b, q.d);
    push(keys, 4 * k + 2, q.d, q.c);
    push(keys, 4 * k + 3, q.c, q.a);
}

// The numbers of all sides.
fn write_keys(mesh: &Mesh<'_>, keys: &mut [u64])
    requires { length keys.old ≡ 4 * mesh.now.counts.quads }
    ensures { keys.new ≡ map side_key (sides_of (mesh_state mesh.now)) }
{
    for k in 0..mesh.counts.quads {
        push_quad(keys, k, front_lent_mesh::quad_at(mesh.quads, k));
    }
}

// ---- the sides

// The sides of a lent mesh's quads.
#[derive(Clone, Copy)]
pub struct Sides<'a> {
    pub mesh: &'a Mesh<'a>,
    keys: &'a [u64],
    ghost listed: { SidesListed (mesh_state mesh.now) keys.now },
}

impl<'a> Sides<'a> {
    // In scratch with a place for each side.
    pub fn new(mesh: &'a Mesh<'a>, keys: &'a mut [u64]) -> Sides<'a>
        requires few { SidesFit (mesh_state mesh.now) }
        requires places { length keys.old ≡ 4 * mesh.now.counts.quads }
        ensures { result.mesh.now ≡ mesh.now }
    {
        write_keys(mesh, keys);
        keys.sort_unstable();
        Sides { mesh, keys }
    }
}

impl Sides<'_> {
    // Whether the side from u to v is there.
    pub fn has(&self, u: u32, v: u32) -> bool
        ensures { result ≡ ltb 0 (count_edge u v (sides_of (mesh_state self.now.mesh.now))) }
    {
        self.keys.binary_search(&key(u, v)).is_ok()
    }

    // Whether the number at i is x.
    fn is_at(&self, i: usize, x: u64) -> bool
        ensures { result ≡ ltb i (length self.now.keys.now) && eqb (get_or self.now.keys.now i 0) x }
    {
        i < self.keys.len() && self.keys[i] == x
    }

    // Whether it is there twice.
    pub fn has_twice(&self, u: u32, v: u32) -> bool
        ensures { result ≡ ltb 1 (count_edge u v (sides_of (mesh_state self.now.mesh.now))) }
    {
        let x = key(u, v);
        match self.keys.binary_search(&x) {
            Ok(i) => self.is_at(i + 1, x) || (i > 0 && self.is_at(i - 1, x)),
            Err(_) => false,
        }
    }
}
