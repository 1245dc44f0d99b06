// The sum of a body.
ghost use Rattle.std.specs.Prelude.{◌≡◌, ◌*◌, ◌%◌, [], ◌∷◌};
ghost use Rattle.model.specs.Bundles.{sum_from, body_sum};

// Twice a number, modulo 2^32.
fn twice(s: u32) -> u32
    ensures { result ≡ (2 * s) % 4_294_967_296 }
{
    s.wrapping_add(s)
}

// 31 times a number, modulo 2^32: 32 times it, by doubling, less once. Document 01 wants it so, over wrapping add and
// subtract.
pub fn times_31(s: u32) -> u32
    ensures { result ≡ (31 * s) % 4_294_967_296 }
{
    let eight = twice(twice(twice(s)));
    twice(twice(eight)).wrapping_sub(s)
}

// The sum with one byte more: "each body byte replaces it by 31 × sum + byte modulo 4,294,967,296".
pub fn with_byte(s: u32, b: u8) -> u32
    ensures { result ≡ sum_from s (b ∷ []) }
{
    times_31(s).wrapping_add(u32::from(b))
}

// The sum of a body: "The sum begins at 0", and each byte of the body is added in turn.
pub fn body_sum(body: &[u8]) -> u32
    ensures { result ≡ body_sum body.now }
{
    body.iter().fold(0, |s, b| with_byte(s, *b))
}
