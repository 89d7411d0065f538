// The structs in which the C interface answers, each with the conversion of the kernel's answer to it.
#![tactic(auto)]

pub mod replies;
