ghost use Rattle.std.specs.Prelude.{◌≡◌, ◌+◌, ◌<◌, ℕ, take, drop, length, IfSome, MatchOption, None, Some};
ghost use Rattle.std.specs.List.{position};
ghost use Rattle.rld_control.specs.Words.{is_space};

/// The parts of a line before and after its first space. `None` if there is no space.
pub(crate) fn parted(line: &[u8]) -> Option<(&[u8], &[u8])>
    ensures { MatchOption result (position is_space line.now ≡ None) (λ parts. (at : ℕ)
        × (position is_space line.now ≡ Some at) × (parts.0.now ≡ take at line.now) × (parts.1.now ≡ drop (at + 1) line.now)) }
{
    let at = space_in(line)?;
    Some((&line[..at], &line[at + 1..]))
}

/// The offset of the first space of a line.
fn space_in(line: &[u8]) -> Option<usize>
    ensures at { result ≡ position is_space line.now }
    ensures within { IfSome result (λ at. at < length line.now) }
{
    line.iter().position(|octet| *octet == b' ')
}
