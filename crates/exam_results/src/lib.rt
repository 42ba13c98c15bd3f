// The results of an exam: thresholds that come and go at the nodes of a mesh, the two figures kept of them, how many quads have all four and the sum of the
// thresholds of those quads, and the estimate between the nodes of a quad. A call that changes them looks only at the quads that name its node.
#![tactic(auto)]

ghost use Rattle.std.specs.Prelude.{◌≡◌, ◌<◌, ◌≤◌, ◌||◌, length, eqb, ltb};
ghost use Rattle.std.specs.List.{list_any};
ghost use Rattle.outline.specs.Refusals.{refusal_number, refused, numbered};
ghost use Rattle.front_lent_mesh.specs.Mesh.{mesh_lent};
ghost use Rattle.exam_thresholds.specs.Figures.{threshold_at, stands, is_complete, once_only, quad_total, count_at, sum_at, share_of};
ghost use Rattle.exam_thresholds.specs.Figures.{moved, outcome, is_missing, refusal_at, with_threshold, begin_answer, enter_answer, withdraw_answer};
ghost use Rattle.exam_estimates.specs.Estimate.{estimate, estimate_of, estimate_refusal, estimate_answer};
ghost use Rattle.exam_results.specs.FigureLaws.{count_share, sum_share};
ghost use Rattle.exam_results.specs.EstimateLaws.{Weighable, Estimable};
ghost use Rattle.exam_results.specs.Lent.{results_lent, results_seen, SameBorrows};

use front_lent_mesh::{LentMesh, QuadIds};
use outline::Refusal;

// The greatest threshold, in tenths of a decibel; anything above it means none.
pub const MOST_THRESHOLD: u32 = 500;

// None, as it is written.
// A number, as the lent lists hold it.
pub const NO_THRESHOLD: u16 = 65535;

// The greatest weight: all the way across the quad.
pub const MOST_WEIGHT: u32 = 256;

// How far across a quad, in 256ths: u from a towards b, v from a towards c.
#[derive(Clone, Copy)]
pub struct Weights {
    pub u: u32,
    pub v: u32,
}

// The thresholds at a quad's corners.
#[derive(Clone, Copy)]
struct CornerThresholds {
    a: u32,
    b: u32,
    d: u32,
    c: u32,
}

// Thresholds as they are lent, at the nodes of a mesh.
#[derive(Clone, Copy)]
pub struct Thresholds<'a> {
    pub mesh: LentMesh<'a>,
    pub list: &'a [u16],
}

// What the quads that name a node have: how many are complete, and the sum of their thresholds.
#[derive(Clone, Copy)]
struct Share {
    count: u32,
    sum: u32,
}

// The results as they are lent: the thresholds, and the two figures kept of them.
#[derive(Drop)]
pub struct LentResults<'a> {
    pub thresholds: &'a mut [u16],
    pub count: &'a mut u32,
    pub sum: &'a mut u32,
}

// The results as they are read: the thresholds, and the figures by value.
#[derive(Clone, Copy)]
pub struct SeenResults<'a> {
    pub thresholds: &'a [u16],
    pub count: u32,
    pub sum: u32,
}

// ---- reading

impl<'a> SeenResults<'a> {
    // The thresholds, at the nodes of a mesh.
    pub fn thresholds(self, mesh: LentMesh<'a>) -> Thresholds<'a>
        ensures { (result.mesh ≡ mesh.entry) × (result.list.now ≡ self.entry.thresholds.now) }
    {
        Thresholds {
            mesh,
            list: self.thresholds,
        }
    }
}

impl Thresholds<'_> {
    // What the list has at id; past the list none.
    // All numbers above 500 mean none, as in the lent list.
    pub fn at(&self, id: u32) -> u32
        ensures { (result ≡ threshold_at self.now.list.now id) × (result ≤ 65535) }
    {
        u32::from(self.list.get(id as usize).copied().unwrap_or(NO_THRESHOLD))
    }

    // Whether a threshold stands at id.
    #[tactic(auto, unfolding(exam_thresholds::specs::Figures::stands))]
    pub fn stands(&self, id: u32) -> bool
        ensures { result ≡ stands self.now.mesh.nodes self.now.list.now id }
    {
        id < self.mesh.nodes && self.at(id) <= MOST_THRESHOLD
    }

    // Whether a threshold stands at all four.
    #[tactic(auto, unfolding(exam_thresholds::specs::Figures::is_complete))]
    pub fn is_complete(&self, q: QuadIds) -> bool
        ensures { result ≡ is_complete self.now.mesh.nodes self.now.list.now q }
    {
        self.stands(q.a) && self.stands(q.b) && self.stands(q.d) && self.stands(q.c)
    }

    // The threshold at id, or 0 where its node was counted already.
    fn once(&self, id: u32, counted: &[u32]) -> u32
        ensures { (result ≡ once_only (list_any (λ x. eqb x id) counted.now) (threshold_at self.now.list.now id)) × (result ≤ 65535) }
    {
        if counted.contains(&id) {
            0
        } else {
            self.at(id)
        }
    }

    // The thresholds of the quad's nodes, each node counted once.
    #[tactic(auto, unfolding(exam_thresholds::specs::Figures::quad_total))]
    fn quad_total(&self, q: QuadIds) -> u32
        ensures { result ≡ quad_total self.now.list.now q }
    {
        let a = self.at(q.a);
        let b = self.once(q.b, &[q.a]);
        let d = self.once(q.d, &[q.a, q.b]);
        let c = self.once(q.c, &[q.a, q.b, q.d]);
        a + b + d + c
    }
}

// ---- the figures moved

impl Thresholds<'_> {
    // What the quad adds to the shares of id.
    #[tactic(auto, unfolding(crate::specs::FigureLaws::count_share, crate::specs::FigureLaws::sum_share, exam_thresholds::specs::Figures::names))]
    fn quad_share(&self, q: QuadIds, id: u32) -> Share
        ensures { (result.count ≡ count_share self.now.mesh.nodes self.now.list.now q id)
            × (result.sum ≡ sum_share self.now.mesh.nodes self.now.list.now q id) }
    {
        if q.has(id) && self.is_complete(q) {
            let sum = self.quad_total(q);
            Share { count: 1, sum }
        } else {
            Share { count: 0, sum: 0 }
        }
    }

    // What the quads have that name id.
    // One scan makes both sums; that neither wraps is its invariant.
    #[tactic(auto, using(crate::specs::FigureLaws::share_small))]
    fn node_share(&self, id: u32) -> Share
        ensures { let m = mesh_lent self.now.mesh in
            (result.count ≡ share_of m id (count_at m self.now.list.now)) × (result.sum ≡ share_of m id (sum_at m self.now.list.now)) }
    {
        let mut count: u32 = 0;
        let mut sum: u32 = 0;
        for k in 0..self.mesh.quad_count() {
            let share = self.quad_share(self.mesh.quad(k), id);
            count += share.count;
            sum += share.sum;
        }
        Share { count, sum }
    }
}

// A figure moved by what was lost and won, modulo 2^32.
#[tactic(auto, unfolding(exam_thresholds::specs::Figures::moved))]
fn moved(x: u32, lost: u32, won: u32) -> u32
    ensures { result ≡ moved x lost won }
{
    x.wrapping_sub(lost).wrapping_add(won)
}

// ---- the refusals

impl Thresholds<'_> {
    // Whether id is no node, or past the list.
    #[tactic(auto, unfolding(exam_thresholds::specs::Figures::is_missing))]
    pub fn is_missing(&self, id: u32) -> bool
        ensures { result ≡ is_missing self.now.mesh.nodes self.now.list.now id }
    {
        self.mesh.nodes <= id || self.list.len() <= id as usize
    }

    // No node where the node is missing, then `high` where v is no threshold.
    #[tactic(auto, unfolding(exam_thresholds::specs::Figures::refusal_at))]
    pub fn check(&self, id: u32, v: u32, high: Refusal) -> Result<(), Refusal>
        ensures { refused result ≡ refusal_at self.now.mesh.nodes self.now.list.now id v (refusal_number high) }
    {
        if self.is_missing(id) {
            return Err(Refusal::NoNode);
        }
        if v > MOST_THRESHOLD {
            return Err(high);
        }
        Ok(())
    }
}

// The same by its number, 0 for neither: `number` may be any, where `check` takes a refusal.
#[tactic(auto, unfolding(exam_thresholds::specs::Figures::refusal_at))]
pub fn refusal_at(nodes: u32, thresholds: &[u16], id: u32, v: u32, number: u32) -> u32
    ensures { result ≡ refusal_at nodes thresholds.now id v number }
{
    let mesh = LentMesh {
        nodes,
        quad_count: 0,
        quads: &[],
    };
    let lent = Thresholds {
        mesh,
        list: thresholds,
    };
    if lent.is_missing(id) {
        return u32::from(Refusal::NoNode);
    }
    if MOST_THRESHOLD < v {
        return number;
    }
    0
}

// ---- the three calls

impl LentResults<'_> {
    // What is read of them.
    pub fn seen(&self) -> SeenResults<'_>
        ensures { results_seen result ≡ results_lent self.now }
    {
        SeenResults {
            thresholds: &*self.thresholds,
            count: *self.count,
            sum: *self.sum,
        }
    }

    // The thresholds, at the nodes of a mesh.
    pub fn thresholds<'b>(&'b self, mesh: LentMesh<'b>) -> Thresholds<'b>
        ensures { (result.mesh ≡ mesh.entry) × (result.list.now ≡ self.now.thresholds.now) }
    {
        Thresholds {
            mesh,
            list: self.seen().thresholds,
        }
    }

    // v written at id, and the figures moved by what the quads that name id had before and have after.
    #[tactic(auto, unfolding(exam_thresholds::specs::Figures::with_threshold))]
    fn set_threshold(&mut self, mesh: LentMesh<'_>, id: u32, v: u16)
        requires { id < length self.old.thresholds.now }
        ensures same { SameBorrows self.old self.new }
        ensures left { results_lent self.new ≡ with_threshold (mesh_lent mesh.entry) (results_lent self.old) id v }
    {
        let lost = self.thresholds(mesh).node_share(id);
        self.thresholds[id as usize] = v;
        let won = self.thresholds(mesh).node_share(id);
        *self.count = moved(*self.count, lost.count, won.count);
        *self.sum = moved(*self.sum, lost.sum, won.sum);
    }

    // An exam begins: none in every place, and both figures 0.
    #[tactic(auto, unfolding(exam_thresholds::specs::Figures::begin_answer))]
    pub fn begin(&mut self)
        ensures same { SameBorrows self.old self.new }
        ensures left { outcome 0 (results_lent self.new) ≡ begin_answer (results_lent self.old) }
    {
        self.thresholds.fill(NO_THRESHOLD);
        *self.count = 0;
        *self.sum = 0;
    }

    // A threshold arrives at a node.
    #[tactic(auto, using(crate::specs::FigureLaws::refusal_answered), unfolding(exam_thresholds::specs::Figures::enter_answer, exam_thresholds::specs::Figures::refusal_at, exam_thresholds::specs::Figures::is_missing))]
    pub fn enter(&mut self, mesh: LentMesh<'_>, node: u32, threshold: u32) -> Result<(), Refusal>
        ensures same { SameBorrows self.old self.new }
        ensures left { outcome (refused result) (results_lent self.new)
            ≡ enter_answer (mesh_lent mesh.entry) (results_lent self.old) node threshold }
    {
        self.thresholds(mesh)
            .check(node, threshold, Refusal::ThresholdTooHigh)?;
        self.set_threshold(mesh, node, threshold as u16);
        Ok(())
    }

    // The threshold at a node is withdrawn.
    #[tactic(auto, using(crate::specs::FigureLaws::refusal_answered), unfolding(exam_thresholds::specs::Figures::withdraw_answer, exam_thresholds::specs::Figures::refusal_at, exam_thresholds::specs::Figures::is_missing))]
    pub fn withdraw(&mut self, mesh: LentMesh<'_>, node: u32) -> Result<(), Refusal>
        ensures same { SameBorrows self.old self.new }
        ensures left { outcome (refused result) (results_lent self.new)
            ≡ withdraw_answer (mesh_lent mesh.entry) (results_lent self.old) node }
    {
        let thresholds = self.thresholds(mesh);
        thresholds.check(node, thresholds.at(node), Refusal::NoThreshold)?;
        self.set_threshold(mesh, node, NO_THRESHOLD);
        Ok(())
    }
}

// ---- estimates

impl Weights {
    // Whether either is above the greatest.
    fn are_too_high(self) -> bool
        ensures { result ≡ (ltb 256 self.u || ltb 256 self.v) }
    {
        self.u > MOST_WEIGHT || self.v > MOST_WEIGHT
    }

    // The thresholds at a quad's corners by the weights, rounded down once.
    #[tactic(auto, using(crate::specs::EstimateLaws::terms_small), unfolding(exam_estimates::specs::Estimate::estimate))]
    fn weigh(self, at: CornerThresholds) -> u32
        requires { Weighable self.u self.v at.a at.b at.d at.c }
        ensures { result ≡ estimate self.u self.v at.a at.b at.d at.c }
    {
        let s = MOST_WEIGHT - self.u;
        let t = MOST_WEIGHT - self.v;
        (s * t * at.a + self.u * t * at.b + self.u * self.v * at.d + s * self.v * at.c) / 65536
    }
}

impl Thresholds<'_> {
    // The estimate in a quad that has all four thresholds.
    #[tactic(auto, unfolding(exam_estimates::specs::Estimate::estimate_of))]
    fn estimate_in(&self, q: QuadIds, weights: Weights) -> u32
        requires { Estimable self.now.mesh.nodes self.now.list.now q weights.u weights.v }
        ensures { result ≡ estimate_of weights.u weights.v self.now.list.now q }
    {
        weights.weigh(CornerThresholds {
            a: self.at(q.a),
            b: self.at(q.b),
            d: self.at(q.d),
            c: self.at(q.c),
        })
    }

    // A quad that isn't in the mesh or lacks a threshold, then a weight above 256.
    #[tactic(auto, unfolding(exam_estimates::specs::Estimate::estimate_refusal))]
    fn check_estimate(&self, quad: usize, weights: Weights) -> Result<(), Refusal>
        ensures { refused result ≡ estimate_refusal (mesh_lent self.now.mesh) self.now.list.now quad weights.u weights.v }
    {
        if quad >= self.mesh.quad_count() || !self.is_complete(self.mesh.quad(quad)) {
            return Err(Refusal::NoQuad);
        }
        if weights.are_too_high() {
            return Err(Refusal::WeightTooHigh);
        }
        Ok(())
    }

    // The estimate in quad `quad` at the weights.
    #[tactic(auto, using(crate::specs::FigureLaws::refusal_answered), unfolding(exam_estimates::specs::Estimate::estimate_answer))]
    pub fn estimate_at(&self, quad: usize, weights: Weights) -> Result<u32, Refusal>
        ensures { numbered result ≡ estimate_answer (mesh_lent self.now.mesh) self.now.list.now quad weights.u weights.v }
    {
        self.check_estimate(quad, weights)?;
        Ok(self.estimate_in(self.mesh.quad(quad), weights))
    }
}
