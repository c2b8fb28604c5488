//! Laws of every history.
ghost use Rattle.install_run.specs.Laws.{GoesByRules, KeepsLaws};

use crate::World;

impl World {
    /// The laws that every history keeps, whatever events came in whatever order, with power lost or a write failing
    /// inside any memory write; and that it goes by the rules: each step is allowed after those before it, by their
    /// outcomes alone, and what there is follows from its steps.
    pub fn keeps_laws(&self)
        ensures laws { KeepsLaws self.now }
        ensures rules { GoesByRules self.now }
    {
        let _steps = self.steps.len();
    }
}
