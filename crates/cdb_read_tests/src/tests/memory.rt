// Databases that are byte slices.
mod damaged;
mod files;
mod finding;
mod uses;
mod walking;
