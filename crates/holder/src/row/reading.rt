// What a row tells, as what the list of its codes tells.
ghost use Rattle.std.specs.Prelude.{◌≡◌, ◌<◌, length, slice_index};
ghost use Rattle.giving.specs.Lists.{first_place};
ghost use Rattle.holder.specs.Rows.{row_list};

use crate::row::Row;
use giving::place_of;

impl Row {
    pub(crate) fn len(&self) -> u16
        ensures { result ≡ length (row_list self.now) }
    {
        self.len
    }

    // The place of a code in the row, if it is there.
    pub(crate) fn find(&self, code: u16) -> Option<u16>
        ensures { result ≡ first_place code (row_list self.now) }
    {
        place_of(code, &self.codes[..self.len as usize]).map(|i| i as u16)
    }

    pub(crate) fn get(&self, i: u16) -> u16
        requires { i < length (row_list self.now) }
        ensures { result ≡ slice_index (row_list self.now) i }
    {
        self.codes[i as usize]
    }
}
