// The loops of a mesh as it is lent, read from links that may be any numbers. Nothing is lent for scratch: a loop is walked once to find how
// long it is, and once to write it.
#![tactic(auto)]

ghost use Rattle.std.specs.Prelude.{◌≡◌, true, false, ◌++◌, take, drop, MatchOption};
ghost use Rattle.outline.specs.Refusals.{numbered};
ghost use Rattle.topology.specs.Links.{link_of};
ghost use Rattle.topology.specs.Walk.{walk_by};
ghost use Rattle.exam_loops.specs.Loops.{links_back, are_paired, links_sound, loop_reading, read_loop};
ghost use Rattle.exam_loop_reads.specs.Code.{some_length, long_from, Found, Writable};

use front::OFF;
use outline::Refusal;

// The links of a mesh as they are lent, of which the first `nodes` count.
#[derive(Clone, Copy)]
pub struct LentLinks<'a> {
    pub nodes: u32,
    pub next: &'a [u32],
    pub prev: &'a [u32],
}

// Links in range, of which the two lists are inverse to each other.
#[derive(Clone, Copy)]
struct SoundLinks<'a> {
    links: LentLinks<'a>,
    ghost sound: { links_sound links.nodes links.next.now links.prev.now ≡ true },
}

// Where a loop starts and how many ids it has.
#[derive(Clone, Copy)]
struct FoundLoop {
    start: u32,
    length: u32,
}

// ---- links

// The link of node u of n; off where the list has none.
// Besides `front::link_of`, which asks for n places: a lent list may have fewer.
// OFF is above every id, which `loop_length` compares, and `write_ids` hands a link on before it is read.
#[tactic(auto, unfolding(topology::specs::Links::link_of))]
fn link_in(n: u32, links: &[u32], u: u32) -> u32
    ensures { result ≡ link_of n links.now u }
{
    if u < n {
        links.get(u as usize).copied().unwrap_or(OFF)
    } else {
        OFF
    }
}

// Whether v, to which u is linked, is off or a node that is linked back to u.
#[tactic(auto, unfolding(exam_loops::specs::Loops::links_back))]
fn links_back(n: u32, back: &[u32], u: u32, v: u32) -> bool
    ensures { result ≡ links_back n back.now u v }
{
    v == OFF || (v < n && link_in(n, back, v) == u)
}

impl LentLinks<'_> {
    // Whether both links of u are answered.
    #[tactic(auto, unfolding(exam_loops::specs::Loops::are_paired))]
    fn are_paired(&self, u: u32) -> bool
        ensures { result ≡ are_paired self.now.nodes self.now.next.now self.now.prev.now u }
    {
        links_back(self.nodes, self.prev, u, link_in(self.nodes, self.next, u))
            && links_back(self.nodes, self.next, u, link_in(self.nodes, self.prev, u))
    }

    // Whether the links of all nodes are.
    fn are_sound(&self) -> bool
        ensures { result ≡ links_sound self.now.nodes self.now.next.now self.now.prev.now }
    {
        (0..self.nodes).all(|u| self.are_paired(u))
    }
}

// ---- one loop

impl LentLinks<'_> {
    // How many nodes the walk along `next` from `start` back to it takes; none where it comes to a node below `start`, or never back.
    // A turn has three ends, two of them with no length, and reads each link once.
    fn walk_length(&self, start: u32) -> Option<u32>
        ensures { result ≡ some_length (walk_by (link_of self.now.nodes self.now.next.now) self.now.nodes start start) }
    {
        let mut u = start;
        for count in 0..self.nodes {
            if u < start {
                return None;
            }
            let v = link_in(self.nodes, self.next, u);
            if v == OFF {
                return None;
            }
            if v == start {
                return Some(count + 1);
            }
            u = v;
        }
        None
    }
}

impl SoundLinks<'_> {
    // The same: where the link back is to a node below u, no loop starts at u, and nothing is walked.
    fn loop_length(&self, u: u32) -> Option<u32>
        ensures { result
            ≡ some_length (walk_by (link_of self.now.links.nodes self.now.links.next.now) self.now.links.nodes u u) }
    {
        if link_in(self.links.nodes, self.links.prev, u) < u {
            return None;
        }
        self.links.walk_length(u)
    }

    // The loop from `start`, where it has three nodes or more.
    fn long_from(&self, start: u32) -> Option<FoundLoop>
        ensures { result ≡ long_from (link_of self.now.links.nodes self.now.links.next.now) self.now.links.nodes start }
    {
        let length = self.loop_length(start)?;
        if length < 3 {
            return None;
        }
        Some(FoundLoop { start, length })
    }

    // Loop k of those that have three nodes or more.
    fn find_loop(&self, k: u32) -> Option<FoundLoop>
        ensures { Found (link_of self.now.links.nodes self.now.links.next.now) self.now.links.nodes k result }
    {
        (0..self.links.nodes)
            .filter_map(|start| self.long_from(start))
            .nth(k as usize)
    }
}

// ---- the reply

impl<'a> LentLinks<'a> {
    // These, where they are sound.
    fn sound(self) -> Option<SoundLinks<'a>>
        ensures { MatchOption result (links_sound self.entry.nodes self.entry.next.now self.entry.prev.now ≡ false) (λ sound. sound.links ≡ self.entry) }
    {
        if self.are_sound() {
            Some(SoundLinks { links: self })
        } else {
            None
        }
    }
}

impl LentLinks<'_> {
    // Writes the first `count` ids of the loop from `start`.
    fn write_ids(&self, start: u32, count: usize, reply: &mut [u32])
        requires { Writable (walk_by (link_of self.now.nodes self.now.next.now) self.now.nodes start start) count reply.old }
        ensures { reply.new
            ≡ take count (walk_by (link_of self.now.nodes self.now.next.now) self.now.nodes start start) ++ drop count reply.old }
    {
        let mut u = start;
        for place in &mut reply[..count] {
            *place = u;
            u = link_in(self.nodes, self.next, u);
        }
    }

    // Loop k of the links on the first places of the reply list, and how many ids it has; on a refusal nothing is written.
    // 0 where there is no such loop: it is read as the empty loop.
    pub fn read_loop(self, k: u32, reply: &mut [u32]) -> Result<usize, Refusal>
        ensures { loop_reading (numbered result) reply.new
            ≡ read_loop self.entry.nodes self.entry.next.now self.entry.prev.now k reply.old }
    {
        let Some(sound) = self.sound() else {
            return Ok(0);
        };
        let Some(found) = sound.find_loop(k) else {
            return Ok(0);
        };
        let length = found.length as usize;
        if reply.len() < length {
            return Err(Refusal::AnswerLists);
        }
        sound.links.write_ids(found.start, length, reply);
        Ok(length)
    }
}
