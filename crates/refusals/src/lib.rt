// What the kernel's operations answer, and the checks on numbers alone. Each check is a total function, equal to its judgement of the written meaning (crate
// outcomes); what an answer means in the documents' numbers is said in specs/Said.antt.
#![tactic(auto)]

pub mod answers;
pub mod chains;
pub mod numbers;
pub mod refusal;
