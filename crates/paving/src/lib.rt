// What a run reads and how it ends; in specs/ the paving of src/alt_crossfield.rs: `attempt_quad`, `try_edge`, `advance` and `front_loops`.
#![tactic(auto)]

ghost use Rattle.std.specs.Prelude.{◌≡◌};
ghost use Rattle.outline.specs.Outline.{outline_of};
ghost use Rattle.outline_blocks.specs.Blocks.{Drawn};
ghost use Rattle.paving.specs.Ends.{end_number};

use field_direction::CrossField;
use outline::Domain;
use outline_blocks::DrawnOutline;

// How a run of passes ends.
#[derive(Clone, Copy)]
pub enum End {
    Still = 0,
    Passes = 1,
    Cap = 2,
    Full = 3,
}

// Its number for hosts.
impl From<End> for u32 {
    ghost from_gives = { λ end number. number ≡ end_number end };

    fn from(end: End) -> u32 {
        end as u32
    }
}

// What is only read round a paving: an outline that isn't refused with its blocks, the size, and the field.
// Outline and blocks, and no `DrawnOutline`: sampling reads the outline alone, and the contracts of a paving name the
// two.
#[derive(Clone, Copy)]
pub struct Surroundings<'a> {
    pub domain: Domain<'a>,
    pub blocks: &'a [u32],
    pub size: f64,
    pub field: CrossField<'a>,
    ghost drawn: { Drawn (outline_of domain) blocks.now },
}

impl<'a> Surroundings<'a> {
    // The outline with its blocks.
    pub fn outline(&self) -> DrawnOutline<'a>
        ensures domain { result.domain ≡ self.now.domain }
        ensures blocks { result.blocks ≡ self.now.blocks }
    {
        DrawnOutline {
            domain: self.domain,
            blocks: self.blocks,
        }
    }
}

// Lists lent for scratch: the pools in which nodes and edges are filed, so that searches go by them, and the edges that were tried in vain.
#[derive(Drop)]
pub struct Scratch<'a> {
    pub node_pool: &'a mut [u32],
    pub edge_pool: &'a mut [u32],
    pub tried: &'a mut [u32],
}

impl<'a> Scratch<'a> {
    pub fn node_pool(&self) -> &[u32]
        ensures { result.now ≡ self.now.node_pool.now }
    {
        self.node_pool
    }

    pub fn edge_pool(&self) -> &[u32]
        ensures { result.now ≡ self.now.edge_pool.now }
    {
        self.edge_pool
    }

    pub fn tried(&self) -> &[u32]
        ensures { result.now ≡ self.now.tried.now }
    {
        self.tried
    }
}
