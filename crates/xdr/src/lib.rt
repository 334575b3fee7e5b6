// Unsigned integers of RFC 4506 in a slice of bytes: big-endian, 4 bytes, or 8 for a hyper.
#![tactic(auto)]

ghost use Rattle.std.specs.Prelude.{◌≡◌, ◌+◌, ◌%◌, ◌^◌, ◌≤◌, ◌<◌, length};
ghost use Rattle.xdr.specs.Be.{be, put_be};

// Reads n bytes from `at` on as a number, 4 at most.
fn word_at(s: &[u8], at: usize, n: usize) -> u64
    requires { (n ≤ 4) × (at + n ≤ length s.now) }
    ensures { (result ≡ be n s.now at) × (result < 256 ^ n) }
{
    let mut v: u64 = 0;
    for j in 0..n {
        v = v * 256 + u64::from(s[at + j]);
    }
    v
}

// Reads the N bytes from `at` on as a number. A number of more than 4 is read as two: a longer sum of bytes is not compiled to one load.
pub fn number_at<const N: usize>(s: &[u8], at: usize) -> u64
    requires { (N ≤ 8) × (at + N ≤ length s.now) }
    ensures { (result ≡ be N s.now at) × (result < 256 ^ N) }
{
    if N <= 4 {
        return word_at(s, at, N);
    }
    word_at(s, at, N - 4) * 4294967296 + word_at(s, at + (N - 4), 4)
}

// Stores v in the N bytes from `at` on.
pub fn put_number<const N: usize>(s: &mut [u8], at: usize, v: u64)
    requires { (N ≤ 8) × (at + N ≤ length s.old) }
    ensures { s.new ≡ put_be N s.old at v }
{
    for j in 0..N {
        s[at + j] = (v >> (8 * (N - 1 - j)) & 255) as u8;
    }
}
