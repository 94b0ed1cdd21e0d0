// What entries are decided over.
ghost use Rattle.std.proofs.Props.{props};
ghost use Rattle.deciding.specs.private.Rows.{Ready};

// Good terms, the index of their tables, and the words of relations and of the past.
#[derive(Clone, Copy)]
pub struct Present<'a> {
    pub terms: &'a [u16],
    pub index: &'a [u16],
    pub relations: &'a [u64],
    pub past: &'a [u64],
    pub ghost ready: { Ready terms.now index.now relations.now past.now } by { Prim.hlevel props },
}
