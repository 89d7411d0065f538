// The orders of a ribbon counted: its tally, from the last mark to the first, one sweep over a row of numbers for each mark.
ghost use Rattle.std.specs.Prelude.{◌-◌, ◌^◌, ◌<◌, ◌≤◌, ◌≡◌, sum};
ghost use Rattle.numbering.specs.Orders.{allowed};
ghost use Rattle.ribbon_orders.specs.Sweeps.{swept};
ghost use Rattle.ribbon_orders.specs.Rows.{orders_given};

// Of all orders, those that a step allows at a place with so many before it: 0 right those after it, 1 down those before it, any other mark, free, all.
fn allowed_by(mark: u8, before: u64, all: u64) -> u64
    requires { before ≤ all }
    ensures { result ≡ allowed mark before (all - before) }
{
    match mark {
        0 => all - before,
        1 => before,
        _ => all,
    }
}

// A row across one more step. One sweep serves all three kinds of step: the row is a tally and an unused 0, in whose place its new last number comes.
#[tactic(auto, using(crate::specs::Sweeps::sweeping))]
fn sweep(mark: u8, row: &mut [u64])
    requires { sum row.old < 2 ^ 64 }
    ensures { row.new ≡ swept mark 0 row.old }
{
    // Kept: a loop, for `row.iter().sum()` makes `orders_of` take 2,479 instructions in place of 2,381 over 20 marks.
    let mut all: u64 = 0;
    for number in row.iter() {
        all += *number;
    }
    let mut before: u64 = 0;
    for place in row.iter_mut() {
        let here = *place;
        *place = allowed_by(mark, before, all);
        before += here;
    }
}

// How many orders at most 20 marks have with none of their cells before the one left of them: all of them, unless the first step goes down. 0 for more marks.
// Rows are summed before a step and never after the last one: the last row of 20 marks may add up to 21 factorial, which is past 64 bits.
#[tactic(auto, using(crate::specs::Rows::rowing))]
pub fn orders_of(marks: &[u8]) -> u64
    ensures { result ≡ orders_given marks.now }
{
    if 20 < marks.len() {
        return 0;
    }
    let mut row = [0u64; 21];
    row[0] = 1;
    let mut numbers = 1;
    for mark in marks.iter().rev() {
        numbers += 1;
        sweep(*mark, &mut row[..numbers]);
    }
    row[0]
}
