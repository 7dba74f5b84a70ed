// The cases that a file holds.
ghost use Rattle.std.specs.Iterator.{YieldsFirstBy, item_count};
ghost use Rattle.comparison.specs.Files.{cases_in};

// The cases that the bytes hold, one after another, each as its letter and its body. Bytes that end within a case end
// before that case.
// Kept (no plainer): as one generic iterator for cases, calls on a holder and calls on a docket it takes a trait with a law, for three bodies of three lines.
#[derive(Drop)]
pub struct Cases<'a>(pub &'a [u8]);

impl<'a> Iterator for Cases<'a> {
    type Item = (u8, &'a [u8]);

    ghost next_gives = { YieldsFirstBy (λ case. (case.0, case.1.now)) (λ cases. cases_in cases.0.now) };

    ghost remaining = { item_count (λ cases. cases_in cases.0.now) };

    fn next(&mut self) -> Option<(u8, &'a [u8])> {
        let (letter, rest) = self.0.split_first()?;
        let (length, rest) = rest.split_first_chunk::<4>()?;
        let (body, behind) = rest.split_at_checked(u32::from_be_bytes(*length) as usize)?;
        self.0 = behind;
        Some((*letter, body))
    }
}
