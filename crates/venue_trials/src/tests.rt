//! Gates and venues under many threads, and at their limits.
mod any_floor;
mod checks;
mod configs;
mod full;
mod gates;
mod venues;
