//! The law of a synchronisation: what the judgement says of its two telegrams.
#![tactic(auto)]

mod law;

pub use law::exchange_is_judged;
