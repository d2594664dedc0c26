// The cases of a program, on standard input, one to a line: a name, a colon, a word whose first letter says what is done, and what the function of
// that word says. A line without a colon is a remark. By `run_unfailing`, which the programs call, a line ends with byte 10, what stands after the last one
// is not run, and at most 65,536 bytes are read. `run_all` runs all lines of a runtime's input, which is text, as `str::lines` parts it.

use crate::text;
use crate::write::Unfailing;

// What a program does with a case, and what it keeps from one case to the next. The handle and the line stay two parameters, here and in the
// programs' calls: a handle is passed on by itself wherever something is written, and a struct of both would be taken apart there.
pub trait Cases {
    // Runs a case with this first letter, and ends its line, which begins with its name.
    fn run<R: Print + AllocGlobal>(
        &mut self,
        rt: &R,
        letter: u8,
        line: &[u8],
    ) -> std::io::Result<()>;
}

// The same by a handle that prints, and gives nothing from a heap.
pub trait PrintCases {
    // Runs a case with this first letter, and ends its line, which begins with its name.
    fn run<R: Print>(&mut self, rt: &R, letter: u8, line: &[u8]) -> std::io::Result<()>;
}

// One line of a runtime's input: its name, and what is written of it.
fn run_line<R: Print + AllocGlobal>(
    rt: &R,
    cases: &mut impl Cases,
    line: &[u8],
) -> std::io::Result<()> {
    let letter = text::letter(line, 1);
    if letter == 0 {
        return Ok(());
    }
    rt.write_all(text::field(line, b':', 0))?;
    cases.run(rt, letter, line)
}

// All lines of a runtime's input. The first failure ends the run, and is told.
pub fn run_all<R: Input + Print + AllocGlobal>(
    rt: &R,
    cases: &mut impl Cases,
) -> std::io::Result<()> {
    let text = std::io::read_to_string(rt.alloc(), rt.reader())?;
    for line in text.as_str().lines() {
        run_line(rt, cases, line.as_bytes())?;
    }
    Ok(())
}

// One line: its name, and what the program writes of it. These are the steps of `run_line`: shared by a closure they took test_screen an instruction more
// for each case.
fn run_line_unfailing(cases: &mut impl PrintCases, line: &[u8]) -> std::io::Result<()> {
    let letter = text::letter(line, 1);
    if letter == 0 {
        return Ok(());
    }
    Unfailing.write_all(text::field(line, b':', 0))?;
    cases.run(&Unfailing, letter, line)
}

// All lines of standard input, up to its last byte 10. The `main` of a program is one call of this with the cases that are its own. The handle tells no
// failure, so no case does.
pub fn run_unfailing(cases: &mut impl PrintCases) {
    let mut buffer = io::large_buffer();
    let count = io::read_full(0, &mut buffer);
    let mut lines = buffer[..count].split(|byte| *byte == b'\n');
    let _unended = lines.next_back();
    for line in lines {
        let _written = run_line_unfailing(cases, line);
    }
}
