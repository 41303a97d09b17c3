//! The texts of images, of port files, and of outputs, ends and traps.
#![tactic(auto)]

mod fault;
mod image_lines;
mod ports;
mod reading;
mod stop_lines;
mod writing;

pub use fault::{ImageFault, PortFault};
pub use ports::read_ports;
pub use reading::read_image;
pub use stop_lines::{push_ending, push_trap};
pub use text_base::{push_decimal, push_hex};
pub use writing::{push_out, write_image, write_outs};
