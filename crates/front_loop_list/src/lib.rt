// The loops of the front, listed: `front_loops` of src/alt_crossfield.rs. It takes time linear in the nodes.
#![tactic(auto)]

ghost use Rattle.std.specs.Prelude.{◌≡◌, ◌≤◌, length};
ghost use Rattle.front_loop_list.specs.Listed.{lists, listed_of, listed_so_far, SameLoopLists, listed_in, Listable};
ghost use Rattle.front_loop_list.specs.Walked.{walk_in, Walkable, Walked};
ghost use Rattle.front_loop_list.specs.Visits.{loop_visited, visit_all, Visitable, Startable};
ghost use Rattle.front_loop_list.specs.ListedLaws.{cleared_marks};

use front::{Counts, OFF};

// How many loops are listed, and how many ids in all of them. A run is whole where `count` is 0 and its outline is sound (`outline_soundness::is_whole`).
#[derive(Clone, Copy)]
pub struct Listed {
    pub count: usize,
    pub ids: usize,
}

// Takes the marks off the first `n` nodes.
fn clear_marks(marks: &mut [u32], n: usize)
    requires { n ≤ length marks.old }
    ensures { marks.new ≡ cleared_marks n marks.old }
{
    marks[..n].fill(0);
}

// The lists that the loops are written into, and what is listed so far.
#[derive(Drop)]
struct LoopLists<'a> {
    marks: &'a mut [u32],
    loops: &'a mut [u32],
    lengths: &'a mut [u32],
    listed: Listed,
}

impl<'a> LoopLists<'a> {
    // Walks along the loop from `start`, marks its nodes and writes their ids past those listed. The answer is the place after them.
    fn write_loop(&mut self, next: &[u32], start: u32) -> usize
        requires { Walkable next.now self.old.marks.now self.old.loops.now start self.old.listed.ids }
        ensures same { SameLoopLists self.old self.new }
        ensures walked { Walked next.now self.old.marks.now self.old.loops.now start self.old.listed.ids self.new.marks.now self.new.loops.now result }
        ensures rest { (self.new.lengths.now ≡ self.old.lengths.now) × (self.new.listed ≡ self.old.listed) }
    {
        let mut u = start;
        let mut i = self.listed.ids;
        // A node's link says after its turn whether there is another.
        loop {
            let node = u as usize;
            self.marks[node] = 1;
            self.loops[i] = u;
            i += 1;
            u = next[node];
            if u == start {
                return i;
            }
        }
    }

    // The turn of node `u`. Where it is on the front and not marked, it is the smallest id of its loop.
    fn visit(&mut self, next: &[u32], u: u32)
        requires { Visitable next.now (listed_so_far self.old) u }
        ensures same { SameLoopLists self.old self.new }
        ensures visited { listed_so_far self.new ≡ loop_visited (walk_in next.now u) (listed_so_far self.old) }
    {
        let node = u as usize;
        let v = next[node];
        if v == OFF {
            return;
        }
        if self.marks[node] == 1 {
            return;
        }
        let second = v as usize;
        if next[second] == u {
            self.marks[node] = 1;
            self.marks[second] = 1;
            return;
        }
        let Listed { count, ids } = self.listed;
        let end = self.write_loop(next, u);
        self.lengths[count] = (end - ids) as u32;
        self.listed = Listed {
            count: count + 1,
            ids: end,
        };
    }

    // The turns of all nodes, in rising order.
    fn visit_all(&mut self, next: &[u32])
        requires { Startable next.now self.old.marks.now self.old.loops.now self.old.lengths.now × (self.old.listed ≡ listed_of 0 0) }
        ensures same { SameLoopLists self.old self.new }
        ensures visited { listed_so_far self.new ≡ visit_all next.now self.old.marks.now self.old.loops.now self.old.lengths.now }
    {
        for u in 0..next.len() {
            self.visit(next, u as u32);
        }
    }
}

// Lists the loops of three nodes or more, each from its smallest id, in the order of these ids: all ids one after the other, and
// each loop's length. `snapshot` is scratch by now and holds marks: at the end 1 for each node on the front, and 0 for one off it.
pub fn front_loops(
    k: Counts,
    next: &[u32],
    snapshot: &mut [u32],
    loops: &mut [u32],
    lengths: &mut [u32],
) -> Listed
    requires { Listable k next.now snapshot.old loops.old lengths.old }
    ensures { lists snapshot.new loops.new lengths.new result
        ≡ listed_in k next.now snapshot.old loops.old lengths.old }
{
    let n = k.nodes as usize;
    clear_marks(snapshot, n);
    let mut lists = LoopLists {
        marks: snapshot,
        loops,
        lengths,
        listed: Listed { count: 0, ids: 0 },
    };
    lists.visit_all(&next[..n]);
    lists.listed
}
