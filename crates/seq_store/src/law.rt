//! Laws that hold of every memory, also of one that no call has seen. Each has an empty body.
ghost use Rattle.std.specs.Prelude.{◌≡◌, ◌+◌, ◌*◌, ◌/◌, ◌^◌, ◌<◌, ◌≤◌, ℕ, true, List, ◌++◌, length};
ghost use Rattle.std.specs.List.{All, sum_by};
ghost use Rattle.nvm_model.specs.Plan.{strike, and_then};
ghost use Rattle.nvm_model.specs.Write.{Write, FitsIn, Reached};
ghost use Rattle.nvm_model.specs.declared.plan.Plan.{Plan};
ghost use Rattle.seq_store.specs.Draws.{Drawn, AreDraws};
ghost use Rattle.seq_store.specs.Keeps.{MayRun, KeepsNumbers, HasItsNumbers};
ghost use Rattle.seq_store.specs.Laws.{Ready, Restores, MayRaise, HasRaiseLaws};
ghost use Rattle.seq_store.specs.Layout.{formatted_memory};
ghost use Rattle.seq_store.specs.Lives.{Event, NeverTwice};
ghost use Rattle.seq_store.specs.Runs.{Numbers, Raise};

/// What the layout of a memory keeps, over every image and every pair of lists of writes: a raise takes at most three
/// writes and leaves the old value or the new one at each moment, and the new one at its end; a memory that was
/// formatted has its numbers; and a plan strikes writes in two parts as it does the whole.
pub fn layout_laws()
    ensures raises { (lanes value number : ℕ) (image : List ℕ) → MayRaise lanes image value number
        → HasRaiseLaws lanes image value number }
    ensures formatted { (last : ℕ) (marks : List ℕ) → last < 2 ^ 48 → All (λ n. n < 2 ^ 48) marks
        → Restores (formatted_memory last marks) last marks × Ready (length marks) (formatted_memory last marks) }
    ensures strikes { (first then : List Write) (plan : Plan) (octets : List ℕ)
        → strike (first ++ then) plan octets ≡ and_then (strike first plan octets) (strike then) }
    ensures struck { (writes : List Write) (plan : Plan) (octets : List ℕ) → All (FitsIn (length octets)) writes
        → Reached writes octets (strike writes plan octets).octets }
{}

/// Raises in turn leave at each moment the numbers of some of them, and after all of them the last; and an image has
/// one set of numbers.
#[tactic(auto, using(crate::proofs::Keeping::has_its_numbers))]
pub fn raises_keep_numbers()
    ensures keeps { (numbers : Numbers) (raises : List Raise) (image : List ℕ) → MayRun numbers raises image
        → KeepsNumbers numbers raises image }
    ensures has { (image : List ℕ) → HasItsNumbers image }
{}

/// Over all starts, draws, raises and stops of one memory, wherever a stop fell, the numbers that are drawn ascend
/// strictly; and `k` draws after a start make at most `3 * (1 + k / 64)` writes, as long as the next number is not
/// raised in between.
pub fn numbers_are_fresh()
    ensures never_twice { (lanes : ℕ) (octets : List ℕ) (events : List Event) → NeverTwice lanes octets events }
    ensures bound { (last : ℕ) (draws : List Drawn) → last < 2 ^ 48 → AreDraws true last (last + 1) draws
        → sum_by (λ d. d.writes) draws ≤ 3 * (1 + length draws / 64) }
{}
