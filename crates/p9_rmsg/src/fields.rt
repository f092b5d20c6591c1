// The fields of each message, one after another.
mod attributes;
mod files;
mod names;
mod session;
