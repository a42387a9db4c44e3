//! Tests of the public calls of the libraries: each with ample memory, on each kind of value and once at a size far
//! beyond the others. They stand in a crate of their own, so that a changed test proves no library again.
#![tactic(auto)]

// What the tests share: data and specifiers from texts, and their texts.
#[cfg(test)]
mod arrays;
#[cfg(test)]
mod asked;
#[cfg(test)]
mod builtin;
#[cfg(test)]
mod copies;
#[cfg(test)]
mod decide;
#[cfg(test)]
mod env;
#[cfg(test)]
mod faults;
#[cfg(test)]
mod grammar;
#[cfg(test)]
mod grammar_arrays;
#[cfg(test)]
mod intern;
#[cfg(test)]
mod io;
#[cfg(test)]
mod literal;
#[cfg(test)]
mod marks;
#[cfg(test)]
mod memo;
#[cfg(test)]
mod object;
#[cfg(test)]
mod points;
#[cfg(test)]
mod predicates;
#[cfg(test)]
mod print;
#[cfg(test)]
mod print_data;
#[cfg(test)]
mod reader;
#[cfg(test)]
mod session;
#[cfg(test)]
mod sides;
#[cfg(test)]
mod simple;
#[cfg(test)]
mod slow;
#[cfg(test)]
mod spec;
#[cfg(test)]
mod structs;
#[cfg(test)]
mod tables;
#[cfg(test)]
mod texts;
#[cfg(test)]
mod typep;
#[cfg(test)]
mod upgrade;
