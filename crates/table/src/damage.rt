// What a walk says of words that hold no tree. Below the six calls every refusal is this one.
#[derive(Clone, Copy, PartialEq, Eq)]
pub struct Damaged;
