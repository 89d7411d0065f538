// The writers of lines (documents 01 and 02, "Lines"): W, T, C, P, J and E, each into a lent byte buffer. Every public function takes whatever it is given. The bytes
// needed are counted before the first is written, so that a refusal changes no byte.
#![tactic(auto)]

mod fields;
mod items;
mod laying;
pub mod line;
mod runs;
