// A docket is opened on a holder, which it owns until it is closed.
ghost use Rattle.std.specs.Prelude.{◌≡◌, []};
ghost use Rattle.sheet.specs.Sheets.{entered};
ghost use Rattle.docket.specs.Pairs.{paired_all};
ghost use Rattle.docket.specs.Agreed.{Agreed, ops_in, steps_in, bound_in};

use crate::docket::Docket;
use crate::ledger::copying::copied;
use holder::holder::Holder;
use item::item::Item;
use sheet::sheet::Sheet;

impl<H: Holder> Docket<H> {
    // A docket of the sheet's operations with the bound k and no step placed. The holder is cleared. It is inlined, so that the
    // docket is made where its caller has it, and not copied there.
    #[inline(always)]
    pub fn open<I: Item>(sheet: &Sheet<I>, mut holder: H, k: u16) -> Docket<H>
        ensures agreed { Agreed H.Holder result }
        ensures steps { steps_in result ≡ [] }
        ensures table { ops_in result ≡ paired_all I.Item.number (entered sheet.now) }
        ensures bound { bound_in result ≡ k }
    {
        holder.clear();
        let ledger = copied(sheet, k);
        Docket { holder, ledger }
    }

    // Gives the holder back, as the placed steps left it.
    pub fn close(self) -> H
        ensures { result ≡ self.holder }
    {
        let Docket { holder, ledger } = self;
        drop(ledger);
        holder
    }
}
