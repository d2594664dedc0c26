// Fields: read from bytes and written to them, least byte first.
//
// The bytes and a place in them are two parameters, as of the slices' own methods: the place may lie anywhere, so a struct of both would promise nothing.
ghost use Rattle.std.specs.Prelude.{◌≡◌, ◌++◌, take, drop};
ghost use Rattle.records.specs.Field.{number_of, bytes_of, first_bytes, signed, unsigned};
ghost use Rattle.records.specs.Put.{put};

// The bytes from `at` on: none where `at` is past the end.
pub fn after(s: &[u8], at: usize) -> &[u8]
    ensures { result.now ≡ drop at s.now }
{
    s.get(at..).unwrap_or(&[])
}

// The N bytes from `at` on: a byte that is not there counts as 0.
fn field<const N: usize>(s: &[u8], at: usize) -> [u8; N]
    ensures { result ≡ first_bytes N (drop at s.now) }
{
    let t = after(s, at);
    // Copying what there is takes longer than taking a whole field.
    if let Some(whole) = t.first_chunk() {
        return *whole;
    }
    let mut bytes = [0; N];
    bytes[..t.len()].copy_from_slice(t);
    bytes
}

// The 2-byte field at `at`. This and `field64` are one line each over `field`, as the puts below over `put`: no trait of the library has these
// methods of the number types, and one of ours would hold the same lines.
pub fn field16(s: &[u8], at: usize) -> u16
    ensures { result ≡ number_of (take 2 (drop at s.now)) }
{
    u16::from_le_bytes(field(s, at))
}

// The 8-byte field at `at`.
pub fn field64(s: &[u8], at: usize) -> u64
    ensures { result ≡ number_of (take 8 (drop at s.now)) }
{
    u64::from_le_bytes(field(s, at))
}

// What a number of four bytes means by two's complement.
pub fn to_signed(u: u32) -> i32
    ensures { result ≡ signed u }
{
    u.cast_signed()
}

// Writes bytes at `at`, or nothing where they do not fit whole.
fn put<const N: usize>(s: &mut [u8], at: usize, bytes: [u8; N])
    ensures { s.new ≡ put s.old at bytes.entry }
{
    if at <= s.len() && N <= s.len() - at {
        s[at..at + N].copy_from_slice(&bytes);
    }
}

// Writes a 2-byte field at `at`, or nothing where it does not fit whole.
pub fn put16(s: &mut [u8], at: usize, value: u16)
    ensures { s.new ≡ put s.old at (bytes_of 2 value) }
{
    put::<2>(s, at, value.to_le_bytes())
}

// Writes an 8-byte field at `at`, or nothing where it does not fit whole.
pub fn put64(s: &mut [u8], at: usize, value: u64)
    ensures { s.new ≡ put s.old at (bytes_of 8 value) }
{
    put::<8>(s, at, value.to_le_bytes())
}

// Writes a signed 4-byte field at `at`, or nothing where it does not fit whole.
pub fn put_signed(s: &mut [u8], at: usize, value: i32)
    ensures { s.new ≡ put s.old at (bytes_of 4 (unsigned value)) }
{
    put::<4>(s, at, value.to_le_bytes())
}

// Writes two 2-byte fields at `at`, one after the other, or nothing where they do not fit whole. Each by its own put: through one array of four
// bytes the compiler takes them apart and together again.
pub fn put_pair(s: &mut [u8], at: usize, first: u16, second: u16)
    ensures { s.new ≡ put s.old at (bytes_of 2 first ++ bytes_of 2 second) }
{
    if at <= s.len() && 4 <= s.len() - at {
        put16(s, at, first);
        put16(s, at + 2, second);
    }
}
