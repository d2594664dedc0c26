// Text: its fields between separators, and the words and numbers of a line 'name: word word 12 ..'. A line and a word's number stay two parameters: a
// struct of both would be made at each call only to be read.
ghost use Rattle.std.specs.Prelude.{◌≡◌, ◌%◌, ◌^◌, ◌≤◌, get_or};
ghost use Rattle.test_support.specs.Text.{field_of, word_of, digit_of, with_digit, number_of};

// Field i, counted from 0: empty past the last one.
pub fn field(text: &[u8], separator: u8, i: usize) -> &[u8]
    ensures { result.now ≡ field_of separator i text.now }
{
    text.split(|byte| *byte == separator).nth(i).unwrap_or(&[])
}

// Word i, the first of which is word 1.
fn word(line: &[u8], i: usize) -> &[u8]
    ensures { result.now ≡ word_of i line.now }
{
    field(field(line, b':', 1), b' ', i)
}

// The first byte of word i, or 0 where there is none.
pub fn letter(line: &[u8], i: usize) -> u8
    ensures { result ≡ get_or (word_of i line.now) 0 0 }
{
    word(line, i).first().copied().unwrap_or(0)
}

// What a byte says as a digit.
fn digit(byte: u8) -> u8
    ensures { (result ≡ digit_of byte) × (result ≤ 15) }
{
    match byte {
        b'0'..=b'9' => byte - b'0',
        0..b'0' => 0,
        _ => (byte % 16 + 9) % 16,
    }
}

// A number with one digit more, or as it is after a low line.
fn with_digit(base: u64, number: u64, byte: u8) -> u64
    requires { base ≤ 16 }
    ensures { result ≡ with_digit base number byte }
{
    if byte == b'_' {
        return number;
    }
    number % 1152921504606846976 * base + u64::from(digit(byte))
}

// The number that digits say.
fn read(digits: &[u8], base: u64) -> u64
    requires { base ≤ 16 }
    ensures { result ≡ number_of base digits.now }
{
    digits
        .iter()
        .fold(0, |number, byte| with_digit(base, number, *byte))
}

// The number in word i, in decimal. Beside it `hex` is one line too: a base at each call that reads a number would say no more than the two names.
pub fn number(line: &[u8], i: usize) -> u64
    ensures { result ≡ number_of 10 (word_of i line.now) }
{
    read(word(line, i), 10)
}

// The number in word i, in hexadecimal.
pub fn hex(line: &[u8], i: usize) -> u64
    ensures { result ≡ number_of 16 (word_of i line.now) }
{
    read(word(line, i), 16)
}

// The decimal number in word i as a byte. Beside it `short` is one line too: no trait of the library cuts a number to a width, and a trait here would
// hold the same two lines.
pub fn byte(line: &[u8], i: usize) -> u8
    ensures { result ≡ number_of 10 (word_of i line.now) % 2 ^ 8 }
{
    (number(line, i) % 256) as u8
}

// The decimal number in word i as one of 16 bits.
pub fn short(line: &[u8], i: usize) -> u16
    ensures { result ≡ number_of 10 (word_of i line.now) % 2 ^ 16 }
{
    (number(line, i) % 65536) as u16
}

// The decimal number in word i as a length.
pub fn size(line: &[u8], i: usize) -> usize
    ensures { result ≡ number_of 10 (word_of i line.now) }
{
    number(line, i) as usize
}
