// What several tests use.
pub mod again;
pub mod buffered;
pub mod fake;
