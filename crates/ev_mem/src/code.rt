// The bytes of code in words.

ghost use Rattle.std.specs.Prelude.{◌≡◌, ◌<◌, take, drop};
ghost use Rattle.ev_mem.specs.Code.{bytes_of_words};

/// Fifteen bytes of three words, little-endian, from a byte of the first word on.
pub fn window(words: [u64; 3], start: usize) -> [u8; 15]
    requires { start < 8 }
    ensures { result ≡ take 15 (drop start (bytes_of_words words)) }
{
    let mut bytes = [0; 24];
    bytes[..8].copy_from_slice(&words[0].to_le_bytes());
    bytes[8..16].copy_from_slice(&words[1].to_le_bytes());
    bytes[16..].copy_from_slice(&words[2].to_le_bytes());
    let mut code = [0; 15];
    code.copy_from_slice(&bytes[start..start + 15]);
    code
}
