//! The atomic registers of a run: what each holds, and how many of its writes stand. A write returns
//! what it overwrote, which leads back to the registers before it:
//!
//! ```text
//! let mut registers = Registers::new(alloc, 3)?;
//! let overwritten = registers.write(Reg::Dec, cell);
//! registers.restore(Reg::Dec, overwritten);
//! ```
#![tactic(auto)]

pub mod register_state;
pub mod registers;

pub use register_state::RegisterState;
pub use registers::Registers;
