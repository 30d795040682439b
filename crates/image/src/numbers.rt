// Numbers in bytes, lowest first.
ghost use Rattle.std.specs.Prelude.{◌≡◌, length};
ghost use Rattle.meaning.specs.Limits.{count_length, row_length};
ghost use Rattle.meaning.specs.Image.{number_of};

// The bytes as an array of just so many.
fn array<const N: usize>(s: &[u8]) -> [u8; N]
    requires { length s.now ≡ N }
    ensures { result ≡ s.now }
{
    let mut bytes = [0u8; N];
    bytes.copy_from_slice(s);
    bytes
}

// The number that four bytes say.
pub fn u32_of(s: &[u8]) -> u32
    requires { length s.now ≡ count_length }
    ensures { result ≡ number_of s.now }
{
    u32::from_le_bytes(array(s))
}

// The number that eight bytes say.
pub fn u64_of(s: &[u8]) -> u64
    requires { length s.now ≡ row_length }
    ensures { result ≡ number_of s.now }
{
    u64::from_le_bytes(array(s))
}
