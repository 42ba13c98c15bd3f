// Presentation order: who comes after whom, and the answer to a presentation order, in `specs/`. No function: `order_checks` and `order_walks` have the code.
#![tactic(auto)]

// `refusal` is 0 where the list is accepted; 21 where some quad is absent, repeated or unknown; 22 where the quad at `place` stands too early.
#[repr(C)]
#[derive(Clone, Copy, Default)]
pub struct OrderAnswer {
    pub refusal: u32,
    pub place: usize,
}
