// What names are looked up in: equates and labels.
ghost use Rattle.std.specs.Prelude.{◌≡◌};
ghost use Rattle.layout.specs.Code.Names.{look_in, NamesReady, NamesKnown};

use crate::equates::Equates;
use crate::labels::Labels;

#[derive(Clone, Copy)]
pub struct Names<'a> {
    pub labels: &'a Labels<'a>,
    pub equates: &'a Equates<'a>,
}

impl Names<'_> {
    // A name's value: an equate's before a label's.
    pub fn value(self, name: &[u8]) -> Option<i64>
        requires { NamesReady self }
        ensures { NamesKnown self.entry (λ scope. result ≡ look_in scope name.now) }
    {
        if let Some(v) = self.equates.constant(name) {
            return Some(v);
        }
        self.labels.address(name).map(i64::from)
    }
}
