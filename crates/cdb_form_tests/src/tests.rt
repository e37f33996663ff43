// Tests of what no contract says: values worked out by hand, and faults of readers and writers.
mod changes;
mod fakes;
mod feeding;
mod lists;
mod maps;
mod pieces;
mod reading;
mod refusals;
mod texts;
mod walking;
mod words;
mod writing;
