// Lines found in the input.
ghost use Rattle.std.specs.Prelude.{◌≡◌, ◌≤◌, length};
ghost use Rattle.buffers.specs.Input.{line_of, complete_at};

// Where the first line ends: at the first byte 10, or at the input's end.
pub fn line_end(l: &[u8]) -> usize
    ensures place { result ≡ length (line_of l.now) }
    ensures bound { result ≤ length l.now }
{
    l.iter().position(|&b| b == b'\n').unwrap_or(l.len())
}

// Whether a line that ends there, of n bytes of input, is complete.
#[tactic(auto, unfolding(crate::specs::Input::complete_at))]
pub fn complete(end: usize, n: usize, more: bool) -> bool
    ensures { result ≡ complete_at end n more }
{
    let least = if more { 4096 } else { 0 };
    end < n || least < n
}
