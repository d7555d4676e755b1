// The front of a text up to a byte.
ghost use Rattle.std.specs.Prelude.{◌≡◌, ◌≤◌, length};
ghost use Rattle.commands.specs.Text.{before};

// How many bytes stand before the first `stop`, or in all where there is none.
pub fn length_before(text: &[u8], stop: u8) -> usize
    ensures count { result ≡ before stop text.now }
    ensures within { result ≤ length text.now }
{
    text.iter().position(|b| *b == stop).unwrap_or(text.len())
}
