// What the C interface replies: structs of numbers, since no enum crosses its boundary. Each begins with number and place; number 0 is success. Beside each
// struct stands the conversion of the kernel's answer to it: after a refusal every field but number and place is 0. What each field holds, for what an answer
// says, is fixed in specs/Replies.antt.
ghost use Rattle.std.specs.Prelude.{◌≡◌};
ghost use Rattle.refusals.specs.Said.{said_cell, said_class, said_junctions, said_sizes, said_value, said_verdict, said_weights};
ghost use Rattle.structs.specs.Replies.{cell_of, class_of, count_of, done_of, junction_of, line_of, move_of, order_of, value_of};

use refusals::answers::{Cell, Junctions, Sizes};
use refusals::refusal::{Refusal, Returned};
use std::cmp::Ordering;

// A check that passed.
#[repr(C)]
#[derive(Clone, Copy)]
pub struct DoneReply {
    pub number: usize,
    pub place: usize,
}

impl From<Result<(), Refusal>> for DoneReply {
    ghost from_gives = { λ answer reply. reply ≡ done_of (said_verdict answer) };

    fn from(answer: Result<(), Refusal>) -> DoneReply {
        match answer {
            Ok(()) => DoneReply {
                number: 0,
                place: 0,
            },
            Err(refusal) => {
                let Returned { number, place } = Returned::from(refusal);
                DoneReply { number, place }
            }
        }
    }
}

// A move: `changed` is the place that it changed, 0 after a refusal; `place` is the refusal's, 0 where the move was made.
#[repr(C)]
#[derive(Clone, Copy)]
pub struct MoveReply {
    pub number: usize,
    pub place: usize,
    pub changed: usize,
}

impl From<Result<usize, Refusal>> for MoveReply {
    ghost from_gives = { λ answer reply. reply ≡ move_of (said_value answer) };

    fn from(answer: Result<usize, Refusal>) -> MoveReply {
        match answer {
            Ok(changed) => MoveReply {
                number: 0,
                place: 0,
                changed,
            },
            Err(refusal) => {
                let Returned { number, place } = Returned::from(refusal);
                MoveReply {
                    number,
                    place,
                    changed: 0,
                }
            }
        }
    }
}

// Elements written, letters used, times a move can be repeated.
#[repr(C)]
#[derive(Clone, Copy)]
pub struct CountReply {
    pub number: usize,
    pub place: usize,
    pub count: usize,
}

impl From<Result<usize, Refusal>> for CountReply {
    ghost from_gives = { λ answer reply. reply ≡ count_of (said_value answer) };

    fn from(answer: Result<usize, Refusal>) -> CountReply {
        match answer {
            Ok(count) => CountReply {
                number: 0,
                place: 0,
                count,
            },
            Err(refusal) => {
                let Returned { number, place } = Returned::from(refusal);
                CountReply {
                    number,
                    place,
                    count: 0,
                }
            }
        }
    }
}

// 1 for one class, 0 for two.
#[repr(C)]
#[derive(Clone, Copy)]
pub struct ClassReply {
    pub number: usize,
    pub place: usize,
    pub same: usize,
}

impl From<Result<bool, Refusal>> for ClassReply {
    ghost from_gives = { λ answer reply. reply ≡ class_of (said_class answer) };

    fn from(answer: Result<bool, Refusal>) -> ClassReply {
        match answer {
            Ok(same) => ClassReply {
                number: 0,
                place: 0,
                same: usize::from(same),
            },
            Err(refusal) => {
                let Returned { number, place } = Returned::from(refusal);
                ClassReply {
                    number,
                    place,
                    same: 0,
                }
            }
        }
    }
}

// 0 equal, 1 lower, 2 higher, 3 neither.
#[repr(C)]
#[derive(Clone, Copy)]
pub struct OrderReply {
    pub number: usize,
    pub place: usize,
    pub order: usize,
}

impl From<Result<Option<Ordering>, Refusal>> for OrderReply {
    ghost from_gives = { λ answer reply. reply ≡ order_of (said_weights answer) };

    fn from(answer: Result<Option<Ordering>, Refusal>) -> OrderReply {
        match answer {
            Ok(weights) => OrderReply {
                number: 0,
                place: 0,
                order: match weights {
                    Some(Ordering::Equal) => 0,
                    Some(Ordering::Less) => 1,
                    Some(Ordering::Greater) => 2,
                    None => 3,
                },
            },
            Err(refusal) => {
                let Returned { number, place } = Returned::from(refusal);
                OrderReply {
                    number,
                    place,
                    order: 0,
                }
            }
        }
    }
}

// The junction set, and the rows.
#[repr(C)]
#[derive(Clone, Copy)]
pub struct JunctionReply {
    pub number: usize,
    pub place: usize,
    pub set: u64,
    pub rows: usize,
}

impl From<Result<Junctions, Refusal>> for JunctionReply {
    ghost from_gives = { λ answer reply. reply ≡ junction_of (said_junctions answer) };

    fn from(answer: Result<Junctions, Refusal>) -> JunctionReply {
        match answer {
            Ok(Junctions { set, rows }) => JunctionReply {
                number: 0,
                place: 0,
                set,
                rows,
            },
            Err(refusal) => {
                let Returned { number, place } = Returned::from(refusal);
                JunctionReply {
                    number,
                    place,
                    set: 0,
                    rows: 0,
                }
            }
        }
    }
}

// The size of a class, or the number of a word in it.
#[repr(C)]
#[derive(Clone, Copy)]
pub struct ValueReply {
    pub number: usize,
    pub place: usize,
    pub value: u64,
}

impl From<Result<u64, Refusal>> for ValueReply {
    ghost from_gives = { λ answer reply. reply ≡ value_of (said_value answer) };

    fn from(answer: Result<u64, Refusal>) -> ValueReply {
        match answer {
            Ok(value) => ValueReply {
                number: 0,
                place: 0,
                value,
            },
            Err(refusal) => {
                let Returned { number, place } = Returned::from(refusal);
                ValueReply {
                    number,
                    place,
                    value: 0,
                }
            }
        }
    }
}

// What a line says: its rank, and the number of its letters or cells. What a reader answers is taken apart by `let else`, as in the program and the converters.
#[repr(C)]
#[derive(Clone, Copy)]
pub struct LineReply {
    pub number: usize,
    pub place: usize,
    pub rank: usize,
    pub count: usize,
}

impl From<Result<Sizes, Refusal>> for LineReply {
    ghost from_gives = { λ answer reply. reply ≡ line_of (said_sizes answer) };

    fn from(answer: Result<Sizes, Refusal>) -> LineReply {
        let Ok(Sizes { rank, count }) = answer else {
            let Returned { number, place } = Returned::from(answer.unwrap_err());
            return LineReply {
                number,
                place,
                rank: 0,
                count: 0,
            };
        };
        LineReply {
            number: 0,
            place: 0,
            rank,
            count,
        }
    }
}

// A cell, or 0 for found where there is no such cell.
#[repr(C)]
#[derive(Clone, Copy)]
pub struct CellReply {
    pub number: usize,
    pub place: usize,
    pub found: usize,
    pub letter: usize,
    pub row: usize,
    pub column: usize,
}

impl From<Result<Option<Cell>, Refusal>> for CellReply {
    ghost from_gives = { λ answer reply. reply ≡ cell_of (said_cell answer) };

    fn from(answer: Result<Option<Cell>, Refusal>) -> CellReply {
        match answer {
            Ok(
                Some(
                    Cell {
                        letter,
                        row,
                        column,
                    },
                ),
            ) => CellReply {
                number: 0,
                place: 0,
                found: 1,
                letter: usize::from(letter),
                row,
                column,
            },
            Ok(None) => CellReply {
                number: 0,
                place: 0,
                found: 0,
                letter: 0,
                row: 0,
                column: 0,
            },
            Err(refusal) => {
                let Returned { number, place } = Returned::from(refusal);
                CellReply {
                    number,
                    place,
                    found: 0,
                    letter: 0,
                    row: 0,
                    column: 0,
                }
            }
        }
    }
}
