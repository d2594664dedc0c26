// Tables of travel times, by a rule.

// A rule by its number: 0 has 1 everywhere, 1 is not symmetric, 2 has entries near the largest, and any other few values, so many ties.
#[derive(Clone, Copy)]
pub struct Rule(pub u32);

impl test_support::table::Rule for Rule {
    fn entry(self, a: u32, b: u32) -> u32 {
        let x = a % 128;
        let y = b % 128;
        match self.0 {
            0 => 1,
            1 => (37 * x + 101 * y) % 97 + (3 * x + 7 * y) % 11 * 9,
            2 => u32::MAX - (37 * x + 101 * y) % 97,
            _ => (2 * x + y / 3 + (5 * x + 3 * y) / 7) % 3,
        }
    }
}
