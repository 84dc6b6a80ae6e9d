//! Devices in memory, and adapters to real files and streams.
mod adapters;
mod clocks;
mod gathering;
mod links;
mod memory;
