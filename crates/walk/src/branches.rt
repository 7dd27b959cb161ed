// What a walk goes down by: branches, each with the box that it is judged by. A run and the slots are two values, so what holds of both (that the run is a
// branch of the slots and has one, and whose number its node has) each function asks.
ghost use Rattle.std.specs.Prelude.{◌≡◌, ◌<◌, List};
ghost use Rattle.terms.specs.Box.{Box};
ghost use Rattle.descent.specs.declared.runs.Run as runs;
ghost use Rattle.descent.specs.Slots.{own_of};
ghost use Rattle.descent.specs.declared.slots.Slots as shelf;
ghost use Rattle.walk.specs.Branches.{BranchLaws};

use descent::runs::Run;
use descent::slots::Slots;

// A kind of branches. The ghost members say which runs are branches of the slots, by which box the words judge one, what the boxes of its slots are, and which
// are the two branches of its node. Each kind proves the laws, and a walk rests on nothing else.
pub trait Branches {
    ghost goes: { Self → shelf.Slots → runs.Run → Type 0 };

    ghost own: { Self → shelf.Slots → runs.Run → Box };

    ghost boxes: { Self → shelf.Slots → runs.Run → List Box };

    ghost is_left: { Self → shelf.Slots → runs.Run → runs.Run → Type 0 };

    ghost is_right: { Self → shelf.Slots → runs.Run → runs.Run → Type 0 };

    ghost laws: { BranchLaws goes own boxes is_left is_right };

    // The left branch of a branch whose node has number p.
    fn left(&self, slots: &Slots, run: Run, p: u32) -> Run
        requires goes { goes self.now slots.now run }
        requires length_nonzero { 0 < run.length }
        requires own { p ≡ own_of slots.now.order.now run.start run.length }
        ensures { is_left self.now slots.now run result };

    // The right branch.
    fn right(&self, slots: &Slots, run: Run, p: u32) -> Run
        requires goes { goes self.now slots.now run }
        requires length_nonzero { 0 < run.length }
        requires own { p ≡ own_of slots.now.order.now run.start run.length }
        ensures { is_right self.now slots.now run result };
}
