// Makers, eager and lazy ones, over stores in memory and files, with faults of the store and want
// of memory.
mod again;
mod appends;
mod drawn;
mod faults;
mod files;
mod filling;
mod longs;
mod lying;
mod maker;
mod makers;
mod model;
mod paced;
mod refusals;
mod said;
mod scarce;
mod scripts;
mod taking;
mod unfinished;
mod uses;
mod wholes;
