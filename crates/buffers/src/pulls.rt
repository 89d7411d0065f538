// Tails of lent lists pulled by one: the first element falls out, each other one moves one back, and the last place keeps its value.
ghost use Rattle.std.specs.Prelude.{◌≡◌};
ghost use Rattle.buffers.specs.Pulls.{pulled};

// A tail of letters, marks or recording entries pulled by one.
#[tactic(auto, using(crate::specs::Pulls::pulling))]
pub fn pull<T: Copy>(tail: &mut [T])
    ensures { tail.new ≡ pulled tail.old }
{
    if !tail.is_empty() {
        tail.copy_within(1.., 0);
    }
}
