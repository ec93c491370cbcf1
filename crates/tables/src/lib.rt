// The accepted tables. Once the checks have passed, an operation puts the two tables and the number of boxes into one struct, which
// goes through the rest of the operation: they aren't checked again against other bytes.
#![tactic(auto)]

ghost use Rattle.std.specs.Prelude.{◌≡◌, ◌<◌};
ghost use Rattle.spec.specs.Records.{record_at, record_count};
ghost use Rattle.spec.proofs.Accepted.{Accepted, AcceptedSheet};
ghost use Rattle.records.specs.Record.{as_rec};

use records::Record;

#[derive(Clone, Copy)]
pub struct Tables<'a> {
    pub maker: &'a [u8],
    pub depot: &'a [u8],
    pub n: usize,
    ghost accepted: { Accepted n maker.now depot.now },
}

impl<'a> Tables<'a> {
    // How many records both tables hold together.
    pub fn records(self) -> usize
        ensures { result ≡ record_count self.entry.maker.now self.entry.depot.now }
    {
        records::count(self.maker, self.depot)
    }

    pub fn record(self, number: usize) -> Record
        requires { number < record_count self.maker.now self.depot.now }
        ensures { as_rec result ≡ record_at self.entry.maker.now self.entry.depot.now number }
    {
        records::record_at(self.maker, self.depot, number)
    }
}

// And with the sheet of an order, once its bytes are accepted too.
#[derive(Clone, Copy)]
pub struct Order<'a, 'b> {
    pub tables: Tables<'a>,
    pub sheet: &'b [u8],
    ghost accepted: { AcceptedSheet tables.n tables.maker.now tables.depot.now sheet.now },
}
