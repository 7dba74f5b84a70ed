// The interface of a strict object that holds codes.
ghost use Rattle.std.specs.Prelude.{◌≡◌, ℕ, ◌+◌, ◌≤◌, min, List, [], length, is_ok, if◌then◌else◌};
ghost use Rattle.std.specs.List.{insert};
ghost use Rattle.giving.specs.Lists.{SeatRule, without};
ghost use Rattle.holder.specs.Answers.{SoundGiving, add_answer, rank_answer, at_answer, take_answer, front_over};

use crate::fault::HolderFault;

// Codes are below this bound.
pub const CODE_BOUND: u16 = 1024;

// So many codes can be added before the holder has to be cleared.
pub const ADD_BOUND: u16 = 1024;

pub trait Holder: Sized {
    // The giving list: the codes held, in the order in which the strict object would give them.
    ghost giving: { Self → List ℕ };

    // How many codes were added since the holder was cleared.
    ghost adds: { Self → ℕ };

    // The seat rule: the place at which a new code goes in, fixed by the giving list and the code alone.
    ghost seat: { SeatRule };

    // ---- reading: these leave the holder as it is

    // How many codes are held.
    fn count(&self) -> u16
        ensures { result ≡ length (giving self.now) };

    // The place of a code in the giving list.
    fn rank(&self, code: u16) -> Result<u16, HolderFault>
        ensures { result ≡ rank_answer (giving self.now) code };

    // The code at a place of the giving list.
    fn at(&self, place: u16) -> Result<u16, HolderFault>
        ensures { result ≡ at_answer (giving self.now) place };

    // Writes the first codes of the giving list over the front of the buffer, as many as there are and it has entries
    // for, and answers how many.
    fn front(&self, buffer: &mut [u16]) -> usize
        ensures answer { result ≡ min (length (giving self.now)) (length buffer.old) }
        ensures written { buffer.new ≡ front_over (giving self.now) buffer.old };

    // ---- writing: a refusal leaves the meaning as it is

    // Takes every code out, and counts adds from 0 again.
    fn clear(&mut self)
        ensures list { giving self.new ≡ [] }
        ensures count { adds self.new ≡ 0 };

    // Puts a new code in at its seat.
    fn add(&mut self, code: u16) -> Result<(), HolderFault>
        ensures answer { result ≡ add_answer (giving self.old) (adds self.old) code }
        ensures list { giving self.new ≡ (if is_ok result then insert (giving self.old) (seat (giving self.old) code) code else giving self.old) }
        ensures count { adds self.new ≡ (if is_ok result then adds self.old + 1 else adds self.old) };

    // Takes a code out; the others keep their order.
    fn take(&mut self, code: u16) -> Result<(), HolderFault>
        ensures answer { result ≡ take_answer (giving self.old) code }
        ensures list { giving self.new ≡ without code (giving self.old) }
        ensures count { adds self.new ≡ adds self.old };

    ghost seated: { (L : List ℕ) (c : ℕ) → seat L c ≤ length L };

    ghost sound: { (h : Self) → SoundGiving (giving h) (adds h) };
}
