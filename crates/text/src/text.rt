// A text in memory that is lent to it.
ghost use Rattle.std.specs.Prelude.{◌≡◌, ℕ, ◌+◌, ◌-◌, ◌<◌, ◌≤◌, true, false, List, [], ◌++◌, min, length, take, drop};
ghost use Rattle.std.specs.List.{flat_map};
ghost use Rattle.std.specs.Option.{option_map};

use crate::piece::Piece;
use itoa::Buffer;

// What was said so far, at the front of the memory that the caller lends. What does not fit is left out, and is never lost
// silently: then the text is not whole.
#[derive(Drop)]
pub struct Text<'a> {
    memory: &'a mut [u8],
    written: usize,
    whole: bool,
    ghost within: { written ≤ length memory.now },
}

// Writes a word over the memory from `at` on, as far as it fits, and answers how many of its bytes do.
fn write_at(memory: &mut [u8], at: usize, word: &[u8]) -> usize
    requires { at ≤ length memory.old }
    ensures fit { result ≡ min (length word.now) (length memory.old - at) }
    ensures memory { memory.new ≡ take at memory.old ++ (take result word.now ++ drop (at + result) memory.old) }
{
    let fit = word.len().min(memory.len() - at);
    memory[at..at + fit].copy_from_slice(&word[..fit]);
    fit
}

impl<'a> Text<'a> {
    ghost use Rattle.text.specs.Contents.{content, unsaid, with_words, all_said, piece_words};

    // A text of which nothing is said yet. Words that fit the memory are all said, at its front, and leave what is behind
    // them as it was; of others there is as much as the memory takes, and the text is not whole.
    pub fn new(memory: &'a mut [u8]) -> Text<'a>
        ensures content { content result ≡ unsaid memory.old memory.entry.ghost_name }
        ensures whole_where_they_fit { (ws : List ℕ) → length ws ≤ length memory.old → with_words ws (content result) ≡ record { bytes = ws; free = drop (length ws) memory.old; whole = true; lender = memory.entry.ghost_name } }
        ensures cut_off_where_not { (ws : List ℕ) → length memory.old < length ws → with_words ws (content result) ≡ record { bytes = take (length memory.old) ws; free = []; whole = false; lender = memory.entry.ghost_name } }
    {
        Text {
            memory,
            written: 0,
            whole: true,
        }
    }

    // Writes a word behind what was said, as far as it fits.
    fn write(&mut self, word: &[u8])
        ensures { content self.new ≡ with_words word.now (content self.old) }
    {
        let fit = write_at(self.memory, self.written, word);
        self.written += fit;
        self.whole = self.whole && fit == word.len();
    }

    // Writes a piece behind what was said.
    fn write_piece(&mut self, piece: &Piece)
        ensures { content self.new ≡ with_words (piece_words piece.now) (content self.old) }
    {
        match piece {
            Piece::Word(word) => self.write(word.as_bytes()),
            Piece::Number(number) => self.write(Buffer::new().format(*number).as_bytes()),
        }
    }

    // Says the pieces, one after another, behind what was said. Words that are said behind others are as one word with them.
    pub fn say(&mut self, pieces: &[Piece])
        ensures content { content self.new ≡ with_words (flat_map piece_words pieces.now) (content self.old) }
        ensures words_behind_words_are_one { (ws : List ℕ) → with_words ws (content self.new) ≡ with_words (flat_map piece_words pieces.now ++ ws) (content self.old) }
    {
        for piece in pieces {
            self.write_piece(piece);
        }
    }

    // All that was said, or none where something of it did not fit.
    pub fn whole(&self) -> Option<&[u8]>
        ensures { option_map (λ b. b.now) result ≡ all_said (content self.now) }
    {
        if self.whole {
            Some(&self.memory[..self.written])
        } else {
            None
        }
    }
}
