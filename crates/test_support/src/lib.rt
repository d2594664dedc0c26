// What the test programs share. A program reads its cases from standard input, one to a line, and writes a line for each: `cases` runs them, `text`
// takes the lines apart, `part` and `table` make what is lent, `count` and `sum` say what it holds afterwards, `write` how it is written.
//
// No public function has a `requires`. No contract can say what is written, so those of `cases` and `write` promise that they return, and the handle that it
// tells no failure. What the programs call reads and writes through the kit's `io` and takes nothing from a heap. Beside it stand, for cases that need a
// runtime or lists as long as they ask for, `cases::run_all`, which runs by a runtime's input, output and allocator, and `part::push` and `table::make`,
// whose vectors lie on a heap; `tests` calls them.

#![tactic(auto)]

pub mod cases;
pub mod count;
pub mod part;
pub mod sum;
pub mod table;
#[cfg(test)]
mod tests;
pub mod text;
pub mod write;
