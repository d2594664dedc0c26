// A fork that is held in a state.

ghost use Rattle.std.specs.Prelude.{◌≡◌, ◌↔◌, ◌<◌, IsSome, IfSome};

// A fork with 2^level stops on each of its sides, held exchanged or not: a state of the fork, in both of which it has the same fields, so a `bool` and no enum.
#[derive(Clone, Copy)]
pub struct Held {
    pub fork: usize,
    pub level: u32,
    pub exchanged: bool,
    ghost some: { 0 < fork },
    ghost shallow: { level < 10 },
}

impl Held {
    // The fork held so, and none where its number is 0 or its level above 9.
    pub fn new(fork: usize, level: u32, exchanged: bool) -> Option<Held>
        ensures fits { IsSome result ↔ ((0 < fork) × (level < 10)) }
        ensures holds { IfSome result (λ h. (h.fork ≡ fork) × (h.level ≡ level) × (h.exchanged ≡ exchanged)) }
    {
        if 0 < fork && level < 10 {
            Some(Held {
                fork,
                level,
                exchanged,
            })
        } else {
            None
        }
    }
}
