//! Trials of devices: shelves, sinks, links and clocks, and the day journal over disks. All of it is tests.
#![tactic(auto)]

#[cfg(test)]
mod tests;
