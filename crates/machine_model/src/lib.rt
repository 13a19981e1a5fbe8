//! What the machine means, and nothing of how it is run: registers, packets and stops as plain
//! data, and in `specs/` the definitions that every contract above cites. `machine_laws`,
//! `range_laws` and `run_laws` show that the definitions mean what they should.
#![tactic(auto)]

mod hart;
mod machine_laws;
mod packet;
mod range_laws;
mod run_laws;
mod stop;
mod types_keep;

pub use hart::{Hart, REGISTERS};
pub use machine_laws::{
    give_keeps_valid, hypercall_keeps_valid, instruction_keeps_valid, loaded_is_valid,
};
pub use packet::{Memory, PACKET_LIMIT, Packet};
pub use range_laws::{least_failing_is_least, written_pages_add_up};
pub use run_laws::{each_run_ends, exceptions_keep, instructions_add, one_end};
pub use stop::Stop;
pub use types_keep::{packet_can_be_given, start_is_loadable};

#[cfg(test)]
mod tests;
