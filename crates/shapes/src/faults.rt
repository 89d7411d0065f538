// The first place whose fault stands, as the checks 5, 6 and 8 tell it. It is looked for only where a pass over all places saw a fault.
ghost use Rattle.std.specs.Prelude.{ℕ, ◌≡◌, ◌<◌, ◌≤◌, false};
ghost use Rattle.shapes.specs.Found.{FirstAt};

// Whether a fault stands at any place from `from` on, below `size`. The loop leaves at no place, so that the compiled code takes many places at once.
fn any_fault<F: Fn(usize) -> bool>(from: usize, size: usize, fault: &F) -> bool
    requires { (k : ℕ) → from ≤ k → k < size → F.pre fault.now k }
    ensures { result ≡ false → (k : ℕ) → from ≤ k → k < size → F.post fault.now k false }
{
    let mut wrong = false;
    for place in from..size {
        wrong |= fault(place);
    }
    wrong
}

// The first such place.
pub(crate) fn first_fault<F: Fn(usize) -> bool>(from: usize, size: usize, fault: F) -> Option<usize>
    requires { (k : ℕ) → from ≤ k → k < size → F.pre fault k }
    ensures { FirstAt (F.post fault) from size result }
{
    if !any_fault(from, size, &fault) {
        return None;
    }
    (from..size).find(
        |place| -> bool
            requires { F.pre fault place.now }
        { fault(*place) },
    )
}
