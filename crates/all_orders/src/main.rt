// Reads a path on standard input and prints every allowed order of it, a line each, or the number of a refusal.
//
// What is printed is `all_orders_output::output_for` of the bytes that are read: at most one byte more than the longest accepted path has,
// since more bytes cannot change the output (the law `longer-same` of `all_orders_output`).

#![tactic(auto)]

use all_orders_output::ENOUGH_INPUT;

// The text of `plan`, about another output: a program's entry has no parameters, and a generic one in a crate of its own would hold these lines once more.
fn main() {
    let mut input = [0u8; ENOUGH_INPUT];
    let count = io::read_full(0, &mut input);
    let output = all_orders_output::output_for(&input[..count]);
    io::write_all(1, output.as_bytes());
}
