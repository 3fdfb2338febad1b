//! The program over NOR flash: an update that is stopped or fails at each call of the device, and a real file.

mod erasing;
mod real_file;
mod stopped;
