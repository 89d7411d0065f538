// Tails of lent lists shifted by one: the new element comes first, each other one moves one on, and the last one falls off.
ghost use Rattle.std.specs.Prelude.{◌≡◌};
ghost use Rattle.buffers.specs.Shifts.{pushed};

// A tail of letters, marks or recording entries shifted by one.
#[tactic(auto, using(crate::specs::Shifts::shifting))]
pub fn shift<T: Copy>(tail: &mut [T], new: T)
    ensures { tail.new ≡ pushed new tail.old }
{
    if let Some(last) = tail.len().checked_sub(1) {
        tail.copy_within(..last, 1);
        tail[0] = new;
    }
}
