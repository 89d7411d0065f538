// The notation of the table of calls, for the program that makes the calls: the table is read, and what came of each call is printed. The notation, and the
// output that the program is held to, are those of scripts/operation_calls.py, which makes the output without the kernel.
#![tactic(auto)]

pub mod answers;
pub mod arguments;
mod items;
pub mod printing;
mod sinks;
pub mod source;
pub mod texts;
