// The parts of a case: numbers of two bytes, and two parts behind a head.
ghost use Rattle.std.specs.Prelude.{◌≡◌, ◌+◌, ◌<◌, ◌≤◌, ◌↔◌, length, drop, IsSome, MatchOption};
ghost use Rattle.std.specs.List.{IsSplitAt};
ghost use Rattle.std.specs.Option.{option_map};
ghost use Rattle.comparison.specs.Calls.{front_number};

// The number at the front of the bytes, and the bytes behind it; none where no two bytes stand there.
#[tactic(auto, unfolding(crate::specs::Calls::front_number))]
pub(crate) fn next_number(bytes: &[u8]) -> Option<(u16, &[u8])>
    ensures { option_map (λ p. (p.0, p.1.now)) result ≡ front_number bytes.now }
{
    let (number, behind) = bytes.split_first_chunk::<2>()?;
    Some((u16::from_be_bytes(*number), behind))
}

// What stands behind the first `head` bytes, cut in two: so many bytes, and the rest; none where there are fewer.
pub(crate) fn cut(body: &[u8], head: usize, count: usize) -> Option<(&[u8], &[u8])>
    ensures cases { MatchOption result (length body.now < head + count) (λ p. IsSplitAt (drop head body.now) count p.0.now p.1.now) }
    ensures variant { IsSome result ↔ (head + count ≤ length body.now) }
{
    body.get(head..)?.split_at_checked(count)
}
