// How often a value stands in a list, and whether every place holds it.
ghost use Rattle.std.specs.Prelude.{◌≡◌, eqb, length};
ghost use Rattle.test_support.specs.Count.{count_of};

// How often a value stands in a list.
pub fn of<T: PartialEq + Copy>(list: &[T], value: T) -> usize
    ensures { result ≡ count_of T.eq value list.now }
{
    list.iter().filter(|x| **x == value).count()
}

// Whether every place of a list holds a value.
pub fn all<T: PartialEq + Copy>(list: &[T], value: T) -> bool
    ensures { result ≡ eqb (count_of T.eq value list.now) (length list.now) }
{
    of(list, value) == list.len()
}
