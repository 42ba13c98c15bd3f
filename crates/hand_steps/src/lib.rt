// What a step by hand reads, and what it answers. The code is in `stepping`.
#![tactic(auto)]

ghost use Rattle.std.specs.Prelude.{◌≡◌};
ghost use Rattle.hand_steps.specs.Outcomes.{outcome_number};

use field_direction::CrossField;
use outline::Domain;

// What a step by hand reads besides the mesh: the outline, the size and the field. It has no blocks, since a step reads the whole mesh in any case.
#[derive(Clone, Copy)]
pub struct Given<'a> {
    pub domain: Domain<'a>,
    pub size: f64,
    pub field: CrossField<'a>,
}

// What a single placing answers.
#[derive(Clone, Copy)]
pub enum StepOutcome {
    Placed = 0,
    None = 1,
    Full = 2,
    Cap = 3,
}

// Its number for hosts.
impl From<StepOutcome> for u32 {
    ghost from_gives = { λ outcome number. number ≡ outcome_number outcome };

    fn from(outcome: StepOutcome) -> u32 {
        outcome as u32
    }
}
