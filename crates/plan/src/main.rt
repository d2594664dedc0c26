// Reads a path on standard input and writes its order file, or one kind 7 record, to standard output.
//
// What is written is `plan_output::output_for` of the bytes that are read: at most one byte more than the longest accepted path has, since
// more bytes cannot change the output (the law `longer-same` of `plan_output`).

#![tactic(auto)]

use plan_output::ENOUGH_INPUT;

// The text of `all_orders`, about another output: a program's entry has no parameters, and a generic one in a crate of its own would hold these lines once more.
fn main() {
    let mut input = [0u8; ENOUGH_INPUT];
    let count = io::read_full(0, &mut input);
    let output = plan_output::output_for(&input[..count]);
    io::write_all(1, output.as_bytes());
}
