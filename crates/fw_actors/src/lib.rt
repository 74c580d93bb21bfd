//! The actors of the hardware and the firmware: the embedded controller, devices, and threads of the firmware.
//!
//! Each is its phase, and makes one step at a time over any [`World`]: the first thing in its list that is allowed.
//! The controller makes its next move of the open transaction, else it leaves burst mode where it may (ACPI 6.5,
//! sections 12.2 and 12.3). A device pulses the events of its list, one a step, and asks nobody. A firmware runs its
//! script act by act, with the Global Lock's protocol around those that need it (section 5.2.10.1).
//!
//! The contracts say what call of the world a step made and what it came to (`specs/Hardware.antt`, and
//! `specs/Stepping.antt` of `world`). [`laws`] has that over the world of one thread a step does exactly what the
//! definitions give its actor.
#![tactic(auto)]

mod controller;
mod controller_turn;
mod device;
mod firmware;
pub mod laws;

pub use controller::Controller;
pub use device::Device;
pub use firmware::Firmware;
pub use world::StepOutcome;
